// The date that a record tells, and the days that remain in its year.
ghost use Rattle.std.specs.Prelude.{◌≡◌};
ghost use Rattle.days.specs.Range.{InRange};
ghost use Rattle.newyear.specs.NewYear.{year_of};
ghost use Rattle.record.specs.Record.{dated_of};
ghost use Rattle.record.specs.Steps.{date_on, date_back};

use crate::moves::{Backward, Onward};
use crate::small_date::SmallDate;
use newyear_code::Span;
use record::Dated;

// A step, for a day in range and the span of its year.
pub fn dated_in(day: u64, span: Span) -> SmallDate
    requires { (InRange day) × (span.year ≡ year_of day) }
    ensures { result.date ≡ dated_of day }
{
    let date = hebrew_months::date_after(span.length, day - span.new_year);
    SmallDate {
        date: Dated {
            year: span.year,
            month: date.month,
            date: date.day,
            remaining: span.new_year + span.length - 1 - day,
        },
    }
}

// A step, for the days of the range.
fn dated(day: u64) -> SmallDate
    requires { InRange day }
    ensures { result.date ≡ dated_of day }
{
    dated_in(day, newyear_code::year_holding(day))
}

impl Onward {
    pub fn date(&self) -> Dated
        ensures { result ≡ date_on self.now.record }
    {
        let r = &self.record;
        if (r.date < 29) & (0 < r.remaining) {
            return Dated {
                year: r.year,
                month: r.month,
                date: r.date + 1,
                remaining: r.remaining - 1,
            };
        }
        dated(self.day).date
    }
}

impl Backward {
    pub fn date(&self) -> SmallDate
        ensures { result.date ≡ date_back self.now.record }
    {
        let r = &self.record;
        if (1 < r.date) & ((r.date <= 30) & ((r.month <= 13) & (r.remaining < 400))) {
            return SmallDate {
                date: Dated {
                    year: r.year,
                    month: r.month,
                    date: r.date - 1,
                    remaining: r.remaining + 1,
                },
            };
        }
        dated(self.day)
    }
}
