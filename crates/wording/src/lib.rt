// What the notice program prints for one input.
//
// The year stands on the input's first line, the month's code on the second. One line is printed: the weekday's name,
// the Gregorian date and the clock's time at the month's molad, and the parts. What is refused prints only its number.
//
// Here stand the rules, in specs/, and what follows from them. The code is in `wording_code`.
#![tactic(auto)]
