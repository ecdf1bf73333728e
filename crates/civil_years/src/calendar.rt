// What a calendar's own arithmetic tells: its years, and the year of a day. The months are the same in both.
ghost use Rattle.std.specs.Prelude.{◌≤◌};
ghost use Rattle.days.specs.Range.{InRange};
ghost use Rattle.civil.specs.Calendar.{Calendar, last_raised};
ghost use Rattle.civil.proofs.Dates.{Covers};
ghost use Rattle.civil_years.specs.Steps.{IsYear, IsYearDay};

use crate::{Year, YearDay};

pub trait Calendar {
    // The leap rule, and the date of the first day.
    ghost rule: { Calendar };

    // A step, for raised years up to the last.
    fn year(number: u64) -> Year
        requires { number ≤ last_raised }
        ensures { IsYear rule number result };

    // A step, for days in range.
    fn year_of(day: u64) -> YearDay
        requires { InRange day }
        ensures { IsYearDay rule day result };

    // The first day's date is a good one, and the range ends within the years that are covered.
    ghost covers: { Covers rule };
}
