// A walk through the dates of a year.
ghost use Rattle.std.specs.Prelude.{◌≡◌};
ghost use Rattle.hebrew.specs.Months.{month_length};
ghost use Rattle.year_dates.specs.Walk.{IsWalk};

use hebrew::YearDate;

#[derive(Clone, Copy)]
pub struct Dates {
    pub length: u64,
    // The next date; past the year's last day there is none.
    pub date: YearDate,
    // The days of its month, so that a step within the month asks for none.
    pub days: u64,
    pub ghost is_walk: { IsWalk length date },
    pub ghost counted: { days ≡ month_length length date.month },
}
