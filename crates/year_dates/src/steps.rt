// How the walk goes on.
ghost use Rattle.std.specs.Prelude.{◌≡◌, ◌-◌, ◌<◌};
ghost use Rattle.std.specs.Iterator.{YieldsFirst, item_count};
ghost use Rattle.newyear.specs.Kinds.{IsLength};
ghost use Rattle.hebrew.specs.Steps.{tomorrow};
ghost use Rattle.year_dates.specs.Walk.{dates};
ghost use Rattle.year_dates.specs.Left.{left};

use crate::walk::Dates;
use hebrew::YearDate;

// A step, for the six lengths: the dates of a year of this length from so many days after New Year on.
pub fn dates_from(length: u64, after: u64) -> Dates
    requires { (IsLength length) × (after < length) }
    ensures { left result ≡ dates length after (length - after) }
{
    let date = hebrew_months::date_after(length, after);
    Dates {
        length,
        date,
        days: hebrew_months::days_in(length, date.month),
    }
}

impl Dates {
    // From one date to the next: in the same month while it has days left.
    fn moved_on(self) -> Dates
        requires { self.date.after < self.length }
        ensures { (result.length ≡ self.length) × (result.date ≡ tomorrow self.length self.date) }
    {
        let Dates { length, date, days } = self;
        if date.day < days {
            let date = YearDate {
                after: date.after + 1,
                month: date.month,
                day: date.day + 1,
            };
            return Dates { length, date, days };
        }
        let date = hebrew_months::next_date(length, date);
        Dates {
            length,
            date,
            days: hebrew_months::days_in(length, date.month),
        }
    }
}

impl Iterator for Dates {
    type Item = YearDate;

    ghost next_gives = { YieldsFirst left };

    ghost remaining = { item_count left };

    fn next(&mut self) -> Option<YearDate> {
        let date = self.date;
        if self.length <= date.after {
            return None;
        }
        *self = self.moved_on();
        Some(date)
    }
}
