// A month and a day that are asked for by year, code and day, where any numbers may be asked.
ghost use Rattle.std.specs.Prelude.{◌≡◌, MatchResult};
ghost use Rattle.refusals.specs.Refusals.{number_of};
ghost use Rattle.molad_code.specs.Asked.{IsMonthAsked};
ghost use Rattle.hebrew.specs.Answers.{no_day, hebrew_day};

use hebrew_months::{days_before, days_in, no_month};
use newyear_code::{Span, span_of_year};
use refusals::Refusal;

// The span of the year that a month is asked of. Refusal 1 for a year outside 1..9999; 2 for a code that is no month of the
// year.
pub fn span_of_month(year: u64, month: u64) -> Result<Span, Refusal>
    ensures { IsMonthAsked year month (λ span. span.year ≡ year) result }
{
    let span = span_of_year(year)?;
    if no_month(span.length, month) {
        return Err(Refusal::BadMonth);
    }
    Ok(span)
}

// The day number of a date. Refusals 1 and 2 as above; 3 for a day outside its month.
pub fn day_number(year: u64, month: u64, day: u64) -> Result<u64, Refusal>
    ensures { MatchResult result (λ told. hebrew_day year month day ≡ record { refusal = 0; day = told }) (λ why. hebrew_day year month day ≡ no_day (number_of why)) }
{
    let span = span_of_month(year, month)?;
    if (day < 1) | (days_in(span.length, month) < day) {
        return Err(Refusal::BadDay);
    }
    Ok(span.new_year + days_before(span.length, month) + (day - 1))
}
