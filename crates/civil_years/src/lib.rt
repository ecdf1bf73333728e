// When does a civil year begin, and which civil year holds a day.
//
// Where the year of a day is looked for, years are begun in March, so that the leap day is the last of its year, and
// centuries and years are split off by whole divisions: four Gregorian centuries have 146,097 days, and four Julian years
// 1,461.
#![tactic(auto)]

mod calendar;
mod gregorian;
mod julian;

pub use calendar::Calendar;
pub use gregorian::Gregorian;
pub use julian::Julian;

// A raised year, whether it is leap, and the day number of the day before it.
#[derive(Drop)]
pub struct Year {
    pub number: u64,
    pub leap: bool,
    pub eve: u64,
}

// A raised year, whether it is leap, and a day of it, from 0.
#[derive(Drop)]
pub struct YearDay {
    pub year: u64,
    pub leap: bool,
    pub day: u64,
}
