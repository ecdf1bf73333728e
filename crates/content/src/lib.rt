// Is what stands on a sheet the calendar's?
//
// A sheet can fit together to the byte and still tell of other days: last year's rows, the other wing's, or a changed number.
//
// Here stand the rules, in specs/, and what follows from them. The code is in `content_code`.
#![tactic(auto)]
