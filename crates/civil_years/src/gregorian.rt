// The Gregorian calendar. Four centuries have 146,097 days, and a year that begins a century is leap only if 4 divides
// the century's number. Counted from 1 January of a year that 400 divides, century c begins after 146,097 c / 4 days,
// rounded up; from its 1 March, so that the leap day of such a year is the last day of four centuries, after so many
// rounded down, and day n lies in century (4 n + 3) / 146,097. The years of a century begun in March go as Julian years
// do, but that the last is a day short unless its century is the last of four.
ghost use Rattle.civil.specs.Calendar.{gregorian};
ghost use Rattle.civil.proofs.GregorianYears.{gregorian_covers};

use crate::{Calendar, Year, YearDay};
use civil_months::{TO_JANUARY, days_before};
use laws::pick;

// 1 January −4000, raised year 0.
const NEW_YEAR: u64 = 260_090;

// 1 March of that year.
const MARCH: u64 = 260_150;

pub struct Gregorian;

impl Calendar for Gregorian {
    ghost rule = { gregorian };

    ghost covers = { gregorian_covers };

    fn year(number: u64) -> Year {
        let centuries = (number + 99) / 100;
        Year {
            number,
            leap: pick(100 * centuries == number, centuries, number) % 4 == 0,
            eve: NEW_YEAR - 1 + 365 * number + (number + 3) / 4 + (centuries + 3) / 4 - centuries,
        }
    }

    fn year_of(day: u64) -> YearDay {
        let century_quarters = 4 * (day - MARCH) + 3;
        let century = century_quarters / 146097;
        let quarters = 4 * (century_quarters % 146097 / 4) + 3;
        let years = quarters / 1461;
        let since_march = quarters % 1461 / 4;
        if TO_JANUARY <= since_march {
            // January and February of the next year.
            YearDay {
                year: 100 * century + years + 1,
                leap: pick(years == 99, century, years) % 4 == 3,
                day: since_march - TO_JANUARY,
            }
        } else {
            let leap = pick(years == 0, century, years) % 4 == 0;
            YearDay {
                year: 100 * century + years,
                leap,
                day: days_before(leap, 3) + since_march,
            }
        }
    }
}
