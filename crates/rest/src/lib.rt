// Which days are rest days.
//
// The rest days of a year stand in a table of month code and day, one for each wing; Saturdays are rest days also. A day is
// a rest day of a wing if it is a Saturday or its month code and day are a row of the wing's table.
//
// Here stand the rules, in specs/, and what follows from them. The code is in `rest_code`.
#![tactic(auto)]
