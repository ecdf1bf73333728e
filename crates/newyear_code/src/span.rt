// A year with its New Year and length, asked for by its number or by a day in it.
ghost use Rattle.days.specs.Range.{InRange};
ghost use Rattle.molad.specs.Years.{InYears};
ghost use Rattle.newyear.specs.NewYear.{year_of};
ghost use Rattle.std.specs.Prelude.{◌≡◌};
ghost use Rattle.newyear_code.specs.Spans.{IsSpan};
ghost use Rattle.newyear_code.specs.Steps.{Finds};

use crate::tishri::begins;

// A year that is covered, the day on which it begins, and its length in days.
#[derive(Clone, Copy)]
pub struct Span {
    pub year: u64,
    pub new_year: u64,
    pub length: u64,
    pub ghost is_span: { IsSpan year new_year length },
}

// A step, for the years 1 to 9999.
pub fn year_span(year: u64) -> Span
    requires { InYears year }
    ensures { result.year ≡ year }
{
    let first = begins(year);
    let next = begins(year + 1);
    Span {
        year,
        new_year: first.new_year,
        length: next.new_year - first.new_year,
    }
}

// The year that holds a day is found by one guess by division, in years of 365¼ days, which is the year before or the
// year itself, and one New Year to tell which.

// New Year H comes in the H-th year of 365¼ days from this day on.
const GUESS_FROM: u64 = 347_700;

// The days of four such years.
const FOUR_YEARS: u64 = 1_461;

// What one New Year tells. Straight-line: whether it comes after the day cannot be foretold, so that a branch would often be
// mispredicted.
#[derive(Drop)]
pub struct Found {
    pub year: u64,
    // The New Year that told, and whether the day comes before it: then it is the next year's, else the year's own.
    pub new_year: u64,
    pub early: bool,
    // The year whose New Year is the other end.
    pub other: u64,
}

// A step, for the days of the range: the year that holds the day.
pub fn year_of(day: u64) -> Found
    requires { InRange day }
    ensures { Finds day result }
{
    let before = (day - GUESS_FROM) * 4 / FOUR_YEARS;
    let tishri = begins(before + 1);
    let early = day < tishri.new_year;
    Found {
        year: laws::pick(early, before, before + 1),
        new_year: tishri.new_year,
        early,
        other: laws::pick(early, before, before + 2),
    }
}

// A step, for the days of the range: the span of the year that holds the day.
pub fn year_holding(day: u64) -> Span
    requires { InRange day }
    ensures { result.year ≡ year_of day }
{
    let found = year_of(day);
    let other = begins(found.other);
    let new_year = laws::pick(found.early, other.new_year, found.new_year);
    Span {
        year: found.year,
        new_year,
        length: laws::pick(found.early, found.new_year, other.new_year) - new_year,
    }
}
