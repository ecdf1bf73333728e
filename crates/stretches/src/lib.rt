// Which stretches of a wing's rest days has a year: those that begin in it.
//
// Here stand the rules, in specs/, and what follows from them. The code is in `stretches_code`.
#![tactic(auto)]
