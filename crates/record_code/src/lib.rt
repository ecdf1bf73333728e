// The code that keeps a panel's day record. Each call is by value: a record comes in, and goes out as the call leaves it,
// with the refusal number. `panel` lends the record.
//
// Set, a day is worked out afresh. Moved, most of it stays: the date goes on within its month, the stretch is kept while it
// answers for the day, and the fast while it is the next. What does not stay is worked out afresh. A record that none of these
// calls made may hold any numbers; one that is counted with is looked at first.
#![tactic(auto)]

mod calls;
mod dates;
mod moves;
mod next_fast;
mod small_date;
mod stretches;

pub use calls::{back, next, set};
