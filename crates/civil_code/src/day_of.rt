// From a date to its day number.
ghost use Rattle.std.specs.Prelude.{◌≡◌};
ghost use Rattle.civil.specs.Answers.{civil_day};
ghost use Rattle.civil_code.specs.Steps.{answered};

use crate::signed::raised;
use civil_months::days_before;
use civil_years::Calendar;
use refusals::Refusal;

// Refusals 5, 6, 7 and 8, in this order.
pub fn day_of<C: Calendar>(year: i64, month: u64, day: u64) -> Result<u64, Refusal>
    ensures { answered result ≡ civil_day C.rule year month day }
{
    let number = raised(year)?;
    if !(1..=12).contains(&month) {
        return Err(Refusal::BadCivilMonth);
    }
    let year = C::year(number);
    let before = days_before(year.leap, month);
    let length = days_before(year.leap, month + 1) - before;
    if !(1..=length).contains(&day) {
        return Err(Refusal::BadCivilDay);
    }
    let found = year.eve + before + day;
    if days::out_of_range(found) {
        return Err(Refusal::CivilDateOutOfRange);
    }
    Ok(found)
}
