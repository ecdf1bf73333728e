// The dates of a year, by how many days after New Year they come.
ghost use Rattle.std.specs.Prelude.{◌≡◌, ◌≤◌, ◌<◌};
ghost use Rattle.newyear.specs.Kinds.{IsLength};
ghost use Rattle.hebrew.specs.Dates.{month_of};
ghost use Rattle.hebrew.specs.Steps.{year_date, tomorrow};

use crate::lengths::{is_leap, long_marheshvan, short_kislev};
use crate::months::{days_before, days_in};
use hebrew::YearDate;

// The month that holds day x of a year, counted from 0: from New Year on up to Shevat, back from the year's end after it.
fn month_of(length: u64, x: u64) -> u64
    requires { (IsLength length) × (x < length) }
    ensures { (result ≡ month_of length x) × ((1 ≤ result) × (result ≤ 13)) }
{
    let long = u64::from(long_marheshvan(length) & (59 <= x));
    let short = u64::from(short_kislev(length) & (88 <= x));
    let from_new_year = (2 * (x + 1 + short - long) + 57) / 59;
    let from_end = 13 - (2 * (length - 1 - x) + 1) / 59;
    let after_shevat = laws::pick(is_leap(length), 236, 206);
    laws::pick(x + after_shevat < length, from_new_year, from_end)
}

// A step, for the six lengths.
pub fn date_after(length: u64, after: u64) -> YearDate
    requires { (IsLength length) × (after < length) }
    ensures { result ≡ year_date length after }
{
    let month = month_of(length, after);
    YearDate {
        after,
        month,
        day: after - days_before(length, month) + 1,
    }
}

// A step, for dates of a year of this length.
pub fn next_date(length: u64, date: YearDate) -> YearDate
    requires { (date.after ≤ 400) × ((date.month ≤ 13) × (date.day ≤ 400)) }
    ensures { result ≡ tomorrow length date }
{
    if (date.day < days_in(length, date.month)) | (13 <= date.month) {
        return YearDate {
            after: date.after + 1,
            month: date.month,
            day: date.day + 1,
        };
    }
    YearDate {
        after: date.after + 1,
        month: laws::pick((date.month == 5) & !is_leap(length), 7, date.month + 1),
        day: 1,
    }
}
