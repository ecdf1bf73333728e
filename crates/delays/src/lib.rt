// How many days after its molad does a year begin, and why.
//
// New Year is the day of the molad of Tishri, or one or two days later. Four delays put it off: a molad at noon or later
// goes to the next day; New Year falls on no Sunday, Wednesday or Friday; and two rules for a molad late on a Tuesday or
// a Monday keep a year from being too long or too short. What was done is the cause, 0 to 5: none, noon, weekday, noon
// then weekday, the Tuesday rule, the Monday rule.
//
// Here stand the rules, in specs/, and what follows from them. The code is in `delays_code`.
#![tactic(auto)]

// The days from the molad to New Year, and their cause: numbers that C is told, and that add up without a branch.
#[derive(Drop)]
pub struct Delayed {
    pub delay: u64,
    pub cause: u64,
}
