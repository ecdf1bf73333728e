// The molad of a month, where any numbers may be asked.
ghost use Rattle.molad_code.specs.Asked.{IsMonthAsked};
ghost use Rattle.molad_code.specs.Steps.{IsMoladOf};

use crate::months::{LAST_YEAR, months_before, no_month};
use crate::parts::{Molad, molad_after};
use refusals::Refusal;

// The molad of a month that is asked. Refusal 1 for a year outside 1..9999; 2 for a code that is no month of the year.
pub fn molad_of(year: u64, month: u64) -> Result<Molad, Refusal>
    ensures { IsMonthAsked year month (IsMoladOf year month) result }
{
    if !(1..=LAST_YEAR).contains(&year) {
        return Err(Refusal::BadYear);
    }
    let before = months_before(year);
    if no_month(before.leap, month) {
        return Err(Refusal::BadMonth);
    }
    let skipped = laws::pick((6 < month) & !before.leap, 2, 1);
    Ok(molad_after(before.months + month - skipped))
}
