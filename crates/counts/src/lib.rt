// How many stretches begin in a year, and in a hundred years at most.
//
// The kind of a year alone tells it, so that fourteen numbers for each wing tell it for every year, and the checker goes
// through the years once and adds up those of a hundred at a time. There is nothing to call: what is shown here says how
// many bytes a sheet can want.
#![tactic(auto)]
