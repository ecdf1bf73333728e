// What is a day number: the range, and the weekday.
//
// A day number is a Julian Day Number, J: the days of all calendars in one count. A Hebrew day begins at 18:00 and has the
// J of the civil day that holds its daylight. The range is that of the Hebrew years 1 to 9999.
#![tactic(auto)]

ghost use Rattle.std.specs.Prelude.{◌≡◌, ◌<◌, ◌≤◌};
ghost use Rattle.days.specs.Range.{out_of_range};
ghost use Rattle.days.specs.Weekday.{weekday_answer};
ghost use Rattle.days.specs.Weekday.{weekday};

use refusals::Refusal;

// 1 Tishri 1.
pub const FIRST_DAY: u64 = 347_998;
// 29 Elul 9999.
pub const LAST_DAY: u64 = 4_000_075;

// C is given this by bd_weekday: the refusal is a number, and zeros stand beside it.
#[repr(C)]
#[derive(Default, Drop)]
pub struct WeekdayAnswer {
    pub refusal: u64,
    pub weekday: u64,
}

// Is the day number outside the range?
pub fn out_of_range(day: u64) -> bool
    ensures { result ≡ out_of_range day }
{
    !(FIRST_DAY..=LAST_DAY).contains(&day)
}

// A seventh of 2 to the 25th, rounded up.
const SEVENTH: u64 = 4_793_491;

const WHOLE: u64 = 33_554_432;

// A step, for numbers near the range: 1 Sunday to 7 Saturday. The division by 7 is a product and a shift.
pub fn weekday_of(day: u64) -> u64
    requires { day ≤ 5000000 }
    ensures { result ≡ weekday day }
{
    let after = day + 1;
    after - 7 * (after * SEVENTH / WHOLE) + 1
}

// Refusal 4 outside the range.
pub fn weekday(day: u64) -> WeekdayAnswer
    ensures { result ≡ weekday_answer day }
{
    if out_of_range(day) {
        return WeekdayAnswer {
            refusal: Refusal::DayOutOfRange as u64,
            ..WeekdayAnswer::default()
        };
    }
    WeekdayAnswer {
        refusal: 0,
        weekday: weekday_of(day),
    }
}
