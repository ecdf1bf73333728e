// The dates of a Hebrew year, one after another.
#![tactic(auto)]

mod steps;
mod walk;

pub use steps::dates_from;
pub use walk::Dates;
