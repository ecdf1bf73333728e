// The months of a year of a given length.
ghost use Rattle.std.specs.Prelude.{◌≡◌, ◌≤◌, leb};
ghost use Rattle.molad.specs.Molad.{no_month};
ghost use Rattle.newyear.specs.Kinds.{IsLength};
ghost use Rattle.hebrew.specs.Months.{month_length, days_before};

use crate::lengths::{is_leap, long_marheshvan, short_kislev};

// Is the code no month of the year?
pub fn no_month(length: u64, month: u64) -> bool
    ensures { result ≡ no_month (leb 383 length) month }
{
    molad_code::no_month(is_leap(length), month)
}

// The days of a month in a year of this length; a code that is no month of the year has none.
#[tactic(auto, unfolding(hebrew::specs::Months::month_length), using(hebrew::proofs::Placed::adar_on))]
pub fn days_in(length: u64, month: u64) -> u64
    ensures { result ≡ month_length length month }
{
    match month {
        1 => 30,
        2 => if long_marheshvan(length) { 30 } else { 29 },
        3 => if short_kislev(length) { 29 } else { 30 },
        4 => 29,
        5 => 30,
        6 => if is_leap(length) { 30 } else { 0 },
        7..=13 => 30 - month % 2,
        _ => 0,
    }
}

// A step, for the six lengths and the codes 1 to 13. Two months have 59 days: up to Adar I they are counted from New
// Year, a long Marheshvan or a short Kislev moving those after it a day, and from Adar on back from the year's end.
pub fn days_before(length: u64, month: u64) -> u64
    requires { (IsLength length) × ((1 ≤ month) × (month ≤ 13)) }
    ensures { (result ≡ days_before length month) × (result ≤ 385) }
{
    let long = u64::from(long_marheshvan(length) & (3 <= month));
    let short = u64::from(short_kislev(length) & (4 <= month));
    let from_new_year = (59 * month + 2) / 2 + long - short;
    let from_end = length + 30 - 59 * (14 - month) / 2;
    laws::pick(6 < month, from_end, from_new_year) - 30
}
