// The code that answers which stretch of a wing's rest days is next. As no stretch crosses a New Year it works on the days
// of one year: it walks through their dates from one to the next and asks each whether it is a rest day.
#![tactic(auto)]

pub mod asked;
mod by_number;
mod found;
mod runs;
mod year_days;

pub use asked::{days_left, stretch, stretch_from};
pub use by_number::stretch_in;
pub use found::NextStretch;
