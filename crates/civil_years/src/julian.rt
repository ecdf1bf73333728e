// The Julian calendar. Four years have 1,461 days. Counted from 1 January of a leap year, year k begins after
// 1,461 k / 4 days, rounded up; from its 1 March, so that a leap day is the last day of four years, after so many rounded
// down, and day n lies in year (4 n + 3) / 1,461.
ghost use Rattle.civil.specs.Calendar.{julian};
ghost use Rattle.civil.proofs.JulianYears.{julian_covers};

use crate::{Calendar, Year, YearDay};
use civil_months::{TO_JANUARY, days_before};

// The day before 1 January −4000, raised year 0.
const EVE: u64 = 260_057;

// 1 March of that year.
const MARCH: u64 = 260_118;

pub struct Julian;

impl Calendar for Julian {
    ghost rule = { julian };

    ghost covers = { julian_covers };

    fn year(number: u64) -> Year {
        Year {
            number,
            leap: number % 4 == 0,
            eve: EVE + 365 * number + (number + 3) / 4,
        }
    }

    fn year_of(day: u64) -> YearDay {
        let quarters = 4 * (day - MARCH) + 3;
        let years = quarters / 1461;
        let since_march = quarters % 1461 / 4;
        if TO_JANUARY <= since_march {
            // January and February of the next year.
            YearDay {
                year: years + 1,
                leap: years % 4 == 3,
                day: since_march - TO_JANUARY,
            }
        } else {
            let leap = years % 4 == 0;
            YearDay {
                year: years,
                leap,
                day: days_before(leap, 3) + since_march,
            }
        }
    }
}
