// What each exported call answers: the definitions of the calendar under the calls' own names, in specs/, and the marked rows
// of document 01. The calls are in `panel`.
#![tactic(auto)]
