// The molad, its notice, and the years that it begins.
ghost use Rattle.std.specs.Prelude.{◌≡◌};
ghost use Rattle.face.specs.Face.{bd_molad, bd_notice, bd_new_year, bd_new_year_rhodes, bd_year, bd_kind, bd_year_of_day};

#[unsafe(no_mangle)]
pub extern "C" fn bd_molad(year: u64, month: u64) -> molad::MoladAnswer
    ensures { result ≡ bd_molad year month }
{
    molad_code::molad(year, month)
}

#[unsafe(no_mangle)]
pub extern "C" fn bd_notice(year: u64, month: u64) -> notice::NoticeAnswer
    ensures { result ≡ bd_notice year month }
{
    notice_code::notice(year, month)
}

#[unsafe(no_mangle)]
pub extern "C" fn bd_new_year(year: u64) -> newyear::NewYearAnswer
    ensures { result ≡ bd_new_year year }
{
    newyear_code::new_year(year)
}

#[unsafe(no_mangle)]
pub extern "C" fn bd_new_year_rhodes(year: u64) -> newyear::NewYearAnswer
    ensures { result ≡ bd_new_year_rhodes year }
{
    rhodes_code::new_year_rhodes(year)
}

#[unsafe(no_mangle)]
pub extern "C" fn bd_year(year: u64) -> newyear::YearAnswer
    ensures { result ≡ bd_year year }
{
    newyear_code::year(year)
}

#[unsafe(no_mangle)]
pub extern "C" fn bd_kind(year: u64) -> newyear::KindAnswer
    ensures { result ≡ bd_kind year }
{
    newyear_code::kind(year)
}

#[unsafe(no_mangle)]
pub extern "C" fn bd_year_of_day(day: u64) -> newyear::YearOfDayAnswer
    ensures { result ≡ bd_year_of_day day }
{
    newyear_code::year_of_day(day)
}
