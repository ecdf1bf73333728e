// Hebrew dates.
ghost use Rattle.std.specs.Prelude.{◌≡◌};
ghost use Rattle.face.specs.Face.{bd_month_length, bd_hebrew_to_day, bd_day_to_hebrew};

#[unsafe(no_mangle)]
pub extern "C" fn bd_month_length(year: u64, month: u64) -> hebrew::MonthAnswer
    ensures { result ≡ bd_month_length year month }
{
    hebrew_code::month_length(year, month)
}

#[unsafe(no_mangle)]
pub extern "C" fn bd_hebrew_to_day(year: u64, month: u64, day: u64) -> hebrew::HebrewDay
    ensures { result ≡ bd_hebrew_to_day year month day }
{
    hebrew_code::hebrew_to_day(year, month, day)
}

#[unsafe(no_mangle)]
pub extern "C" fn bd_day_to_hebrew(day: u64) -> hebrew::HebrewDate
    ensures { result ≡ bd_day_to_hebrew day }
{
    hebrew_code::day_to_hebrew(day)
}
