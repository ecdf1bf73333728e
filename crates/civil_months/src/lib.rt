// How many days of a civil year come before a month, and which month holds a day of it.
//
// The months are the same in both calendars. Their count begins in March: from there on they have 31, 30, 31,
// 30 and 31 days, 153 in five months, and so again. Month m begins (153 (m − 3) + 2) / 5 days after 1 March, and the day
// that is x days after it lies in month (5 x + 2) / 153 + 3. January and February stand before the count, 31 days apart,
// and with them the leap day, so that it moves the count as a whole.
#![tactic(auto)]

ghost use Rattle.std.specs.Prelude.{◌≡◌, ◌≤◌, ◌<◌};
ghost use Rattle.civil.specs.Calendar.{days_before, year_days};
ghost use Rattle.civil.specs.Good.{IsMonthDay};

// The days from 1 January to 1 March in a common year.
const TO_MARCH: u64 = 59;

// The days from 1 March to 1 January, two times five months.
pub const TO_JANUARY: u64 = 306;

// A month and a day of it, from 1.
#[derive(Drop)]
pub struct MonthDay {
    pub month: u64,
    pub day: u64,
}

// A step, for months 1 to 12; 13 gives the whole year.
pub fn days_before(leap: bool, month: u64) -> u64
    requires { (1 ≤ month) × (month ≤ 13) }
    ensures { (result ≡ days_before leap month) × (result ≤ 366) }
{
    if month < 3 {
        31 * (month - 1)
    } else {
        TO_MARCH + u64::from(leap) + (153 * (month - 3) + 2) / 5
    }
}

// A step, for a day of the year, from 0.
pub fn month_of(leap: bool, day: u64) -> MonthDay
    requires { day < year_days leap }
    ensures { IsMonthDay leap day result.month result.day }
{
    let march = days_before(leap, 3);
    if day < march {
        MonthDay {
            month: day / 31 + 1,
            day: day % 31 + 1,
        }
    } else {
        let fifths = 5 * (day - march) + 2;
        MonthDay {
            month: fifths / 153 + 3,
            day: fifths % 153 / 5 + 1,
        }
    }
}
