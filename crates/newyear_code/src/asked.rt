// The span of a year, or of the year that holds a day, where any number may be asked. Inlined, since a call passes its
// `Result` through memory.
ghost use Rattle.refusals.specs.declared.Refusal.TheVariants.{BadYear, DayOutOfRange};
ghost use Rattle.days.specs.Range.{out_of_range};
ghost use Rattle.molad.specs.Years.{out_of_years};
ghost use Rattle.newyear.specs.NewYear.{year_of};
ghost use Rattle.newyear_code.specs.Asked.{IsAsked};

use crate::span::{Span, year_holding, year_span};
use molad_code::LAST_YEAR;
use refusals::Refusal;

// The span of a year that is asked. Refusal 1 for a year outside 1..9999.
#[inline(always)]
pub fn span_of_year(year: u64) -> Result<Span, Refusal>
    ensures { IsAsked (out_of_years year) BadYear year result }
{
    if (1..=LAST_YEAR).contains(&year) {
        Ok(year_span(year))
    } else {
        Err(Refusal::BadYear)
    }
}

// The span of the year that holds a day that is asked. Refusal 4 for a day outside the range.
#[inline(always)]
pub fn span_of_day(day: u64) -> Result<Span, Refusal>
    ensures { IsAsked (out_of_range day) DayOutOfRange (year_of day) result }
{
    if days::out_of_range(day) {
        return Err(Refusal::DayOutOfRange);
    }
    Ok(year_holding(day))
}
