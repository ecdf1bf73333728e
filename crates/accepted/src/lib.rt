// Are bytes accepted for a wing's sheet?
//
// A panel holds the bytes of a sheet as they were loaded, and nothing is known of them. So before anything is taken out they
// must be enough for a header, the header must name years that a sheet can have, header, index and size must fit each other
// to the byte, and year lengths, rows and wing bytes must be the calendar's for the wing that the caller names. They pass
// exactly if a writer could have written them for that wing (theorem `accepted_exactly`).
//
// Here stand the rules, in specs/, and what follows from them. The code is in `accepted_code`.
#![tactic(auto)]
