// The code that answers which Hebrew date is a day, and which day is a date.
#![tactic(auto)]

mod asked;

ghost use Rattle.std.specs.Prelude.{◌≡◌};
ghost use Rattle.hebrew.specs.Answers.{month_answer, hebrew_day, hebrew_date};

use asked::{day_number, span_of_month};
use hebrew::{HebrewDate, HebrewDay, MonthAnswer};
use hebrew_months::{date_after, days_in};
use newyear_code::span_of_day;

// Refusal 1 for a year outside 1..9999; 2 for a code that is no month of the year.
pub fn month_length(year: u64, month: u64) -> MonthAnswer
    ensures { result ≡ month_answer year month }
{
    match span_of_month(year, month) {
        Ok(span) => MonthAnswer {
            refusal: 0,
            days: days_in(span.length, month),
        },
        Err(why) => MonthAnswer {
            refusal: why.number(),
            ..MonthAnswer::default()
        },
    }
}

// Refusals 1 and 2 as above; 3 for a day outside its month.
pub fn hebrew_to_day(year: u64, month: u64, day: u64) -> HebrewDay
    ensures { result ≡ hebrew_day year month day }
{
    match day_number(year, month, day) {
        Ok(day) => HebrewDay { refusal: 0, day },
        Err(why) => HebrewDay {
            refusal: why.number(),
            ..HebrewDay::default()
        },
    }
}

// Refusal 4 for a day outside the range.
pub fn day_to_hebrew(day: u64) -> HebrewDate
    ensures { result ≡ hebrew_date day }
{
    match span_of_day(day) {
        Ok(span) => {
            let date = date_after(span.length, day - span.new_year);
            HebrewDate {
                refusal: 0,
                year: span.year,
                month: date.month,
                day: date.day,
                new_year: span.new_year,
                length: span.length,
                day_of_year: date.after + 1,
            }
        }
        Err(why) => HebrewDate {
            refusal: why.number(),
            ..HebrewDate::default()
        },
    }
}
