// The months of a Hebrew year of a given length, and the dates of such a year by how many days after New Year they come.
#![tactic(auto)]

mod date;
mod lengths;
mod months;

pub use date::{date_after, next_date};
pub use months::{days_before, days_in, no_month};
