// What the sheet program writes for one input.
//
// The wing stands on the input's first line, the first year on the second, and how many years on the third. What is written
// is the sheet's bytes, and they are no text: what is refused writes none of them, and says its number on standard error.
//
// Here stand the rules, in specs/, and what follows from them. The code is in `filing_code`.
#![tactic(auto)]
