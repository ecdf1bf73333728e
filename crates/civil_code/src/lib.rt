// The code that answers which date is a day in a calendar, Julian or Gregorian, and which day is a date. Both calendars
// take the same steps, once the year's own arithmetic is done.
#![tactic(auto)]

mod day_of;
mod signed;

ghost use Rattle.std.specs.Prelude.{◌≡◌};
ghost use Rattle.civil.specs.Answers.{civil_day, civil_date};

use civil::{CivilDate, CivilDay};
use civil_months::month_of;
pub use civil_years::{Calendar, Gregorian, Julian};
use day_of::day_of;
use refusals::Refusal;
use signed::lowered;

// Refusals 5, 6, 7 and 8.
pub fn to_day<C: Calendar>(year: i64, month: u64, day: u64) -> CivilDay
    ensures { result ≡ civil_day C.rule year month day }
{
    match day_of::<C>(year, month, day) {
        Ok(day) => CivilDay { refusal: 0, day },
        Err(why) => CivilDay {
            refusal: why.number(),
            ..CivilDay::default()
        },
    }
}

// Refusal 4 outside the range.
pub fn to_date<C: Calendar>(day: u64) -> CivilDate
    ensures { result ≡ civil_date C.rule day }
{
    if days::out_of_range(day) {
        return CivilDate {
            refusal: Refusal::DayOutOfRange as u64,
            ..CivilDate::default()
        };
    }
    let at = C::year_of(day);
    let found = month_of(at.leap, at.day);
    CivilDate {
        refusal: 0,
        year: lowered(at.year),
        month: found.month,
        day: found.day,
    }
}
