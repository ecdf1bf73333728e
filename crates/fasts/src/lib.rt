// On which days the kitchens stand idle: the five fasts of a year, and which of them is next.
//
// A fast stands in a table of month code and day. Where that date is a Saturday the fast is kept on another day of the same
// month, so that its month code says which fast it is.
//
// Here stand the rules, in specs/, and what follows from them. The code is in `fasts_code`.
#![tactic(auto)]

// The fast ahead of a day: its month code, and the days left until it. It has a flag and is no Option, since `fast_ahead` is
// defined by this record, and `FastTold` and `WordsFixed` speak of its flag.
#[derive(Drop)]
pub struct Ahead {
    pub month: u64,
    pub left: u64,
    // 1 where no fast is left in range; then the two before it are 0.
    pub none: u64,
}
