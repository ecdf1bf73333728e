// The sheet of stretches that the panels load, written from the calendar.
//
// A sheet holds the stretches of a wing for 1 to 100 years: a header, an index with an entry for each year, and a row for
// each stretch.
//
// Here stand the rules, in specs/, and what follows from them. The code is in `sheet_code`.
#![tactic(auto)]
