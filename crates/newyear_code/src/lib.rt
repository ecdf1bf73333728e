// The code that answers on which day a Hebrew year begins and why then, how long it is, of which kind, and which year holds
// a day.
#![tactic(auto)]

mod asked;
mod kinds;
mod span;
mod tishri;

ghost use Rattle.std.specs.Prelude.{◌≡◌};
ghost use Rattle.newyear.specs.Answers.{new_year_answer, year_answer, year_of_day_answer};

pub use asked::{span_of_day, span_of_year};
pub use kinds::kind;
use molad_code::{LAST_NEW_YEAR, LAST_YEAR};
use newyear::{NewYearAnswer, YearAnswer, YearOfDayAnswer};
use refusals::Refusal;
use span::year_of;
pub use span::{Span, year_holding, year_span};
use tishri::begins;

// Refusal 1 for a year outside 1..10,000.
pub fn new_year(year: u64) -> NewYearAnswer
    ensures { result ≡ new_year_answer year }
{
    if !(1..=LAST_NEW_YEAR).contains(&year) {
        return NewYearAnswer {
            refusal: Refusal::BadYear as u64,
            ..NewYearAnswer::default()
        };
    }
    let tishri = begins(year);
    NewYearAnswer {
        refusal: 0,
        day: tishri.new_year,
        weekday: tishri.weekday,
        molad_day: tishri.molad.day,
        molad_hour: tishri.molad.hour(),
        molad_part: tishri.molad.part(),
        delay: tishri.late.delay,
        cause: tishri.late.cause,
    }
}

// Refusal 1 for a year outside 1..9999.
pub fn year(year: u64) -> YearAnswer
    ensures { result ≡ year_answer year }
{
    if !(1..=LAST_YEAR).contains(&year) {
        return YearAnswer {
            refusal: Refusal::BadYear as u64,
            ..YearAnswer::default()
        };
    }
    let first = begins(year);
    let length = begins(year + 1).new_year - first.new_year;
    YearAnswer {
        refusal: 0,
        new_year: first.new_year,
        weekday: first.weekday,
        length,
        months: laws::pick(383 <= length, 13, 12),
        delay: first.late.delay,
        cause: first.late.cause,
    }
}

// Refusal 4 for a day outside the range.
pub fn year_of_day(day: u64) -> YearOfDayAnswer
    ensures { result ≡ year_of_day_answer day }
{
    if days::out_of_range(day) {
        return YearOfDayAnswer {
            refusal: Refusal::DayOutOfRange as u64,
            ..YearOfDayAnswer::default()
        };
    }
    // One New Year tells the year; its span would want the other too.
    YearOfDayAnswer {
        refusal: 0,
        year: year_of(day).year,
    }
}
