// Day numbers, weekdays and civil dates.
ghost use Rattle.std.specs.Prelude.{◌≡◌};
ghost use Rattle.face.specs.Face.{bd_weekday, bd_julian_to_day, bd_gregorian_to_day, bd_day_to_julian, bd_day_to_gregorian};

use civil_code::{Gregorian, Julian};

#[unsafe(no_mangle)]
pub extern "C" fn bd_weekday(day: u64) -> days::WeekdayAnswer
    ensures { result ≡ bd_weekday day }
{
    days::weekday(day)
}

#[unsafe(no_mangle)]
pub extern "C" fn bd_julian_to_day(year: i64, month: u64, day: u64) -> civil::CivilDay
    ensures { result ≡ bd_julian_to_day year month day }
{
    civil_code::to_day::<Julian>(year, month, day)
}

#[unsafe(no_mangle)]
pub extern "C" fn bd_gregorian_to_day(year: i64, month: u64, day: u64) -> civil::CivilDay
    ensures { result ≡ bd_gregorian_to_day year month day }
{
    civil_code::to_day::<Gregorian>(year, month, day)
}

#[unsafe(no_mangle)]
pub extern "C" fn bd_day_to_julian(day: u64) -> civil::CivilDate
    ensures { result ≡ bd_day_to_julian day }
{
    civil_code::to_date::<Julian>(day)
}

#[unsafe(no_mangle)]
pub extern "C" fn bd_day_to_gregorian(day: u64) -> civil::CivilDate
    ensures { result ≡ bd_day_to_gregorian day }
{
    civil_code::to_date::<Gregorian>(day)
}
