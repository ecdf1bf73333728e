// The code that lists a year's fasts, and finds the one ahead of a day.
#![tactic(auto)]

ghost use Rattle.std.specs.Prelude.{◌≡◌, true, ◌≤◌};
ghost use Rattle.days.specs.Range.{InRange};
ghost use Rattle.newyear.specs.NewYear.{year_of};
ghost use Rattle.hebrew.specs.Rows.{row_good};
ghost use Rattle.fasts.specs.Fasts.{kept_on, fast_day};
ghost use Rattle.fasts.specs.Ahead.{fast_ahead};
ghost use Rattle.fasts.specs.Steps.{may_fast};
ghost use Rattle.fasts.specs.Answers.{fasts_answer, fasts_buffer};

use fasts::Ahead;
use lists::ListAnswer;
use newyear_code::Span;

// Tishri 3, Tevet 10, Adar 13, Tammuz 17, Av 9. A row is 100 × month code + day.
static FAST_TABLE: [u64; 5] = [1_03, 4_10, 7_13, 11_17, 12_09];

// For numbers near the range: the day on which a month's fast is kept whose date is this day.
#[tactic(auto, unfolding(fasts::specs::Fasts::kept_on))]
fn kept_on(month: u64, day: u64) -> u64
    requires { (2 ≤ day) × (day ≤ 5000000) }
    ensures { result ≡ kept_on month day }
{
    if days::weekday_of(day) != 7 {
        return day;
    }
    match month {
        1 | 11 | 12 => day + 1,
        7 => day - 2,
        _ => day,
    }
}

// The day on which the fast of a row is kept in the year.
#[tactic(auto, unfolding(fasts::specs::Fasts::fast_day))]
fn fast_day(span: Span, row: u64) -> u64
    requires { row_good span.length row ≡ true }
    ensures { result ≡ fast_day span.year row }
{
    kept_on(row / 100, lists_code::row_day(span, row))
}

// The days of the year's five fasts, rising. Refusal 1 for a year outside 1..9999; 10 for a buffer of fewer than five
// entries. A refused call leaves the buffer as it was.
pub fn fasts(year: u64, out: &mut [u64]) -> ListAnswer
    ensures { (result ≡ fasts_answer year out.old) × (out.new ≡ fasts_buffer year out.old) }
{
    match newyear_code::span_of_year(year) {
        Ok(span) => lists_code::list_days(
            &FAST_TABLE,
            |row|
                requires { row_good span.length row ≡ true }
                ensures { result ≡ fast_day span.year row }
            { fast_day(span, row) },
            out,
        ),
        Err(why) => ListAnswer {
            refusal: why.number(),
            ..ListAnswer::default()
        },
    }
}

// A step, for a day in range and the span of its year: the fast ahead of it. After the year's last that is the next year's
// first, of 3 Tishri, two days after New Year.
pub fn ahead_in(day: u64, span: Span) -> Ahead
    requires { (InRange day) × (span.year ≡ year_of day) }
    ensures { result ≡ fast_ahead day }
{
    for row in &FAST_TABLE {
        let kept = fast_day(span, *row);
        if day <= kept {
            return Ahead {
                month: row / 100,
                left: kept - day,
                none: 0,
            };
        }
    }
    if molad_code::LAST_YEAR <= span.year {
        return Ahead {
            month: 0,
            left: 0,
            none: 1,
        };
    }
    Ahead {
        month: 1,
        left: kept_on(1, span.new_year + span.length + 2) - day,
        none: 0,
    }
}

// A step, for the days of the range: the fast ahead of the day.
pub fn ahead(day: u64) -> Ahead
    requires { InRange day }
    ensures { result ≡ fast_ahead day }
{
    ahead_in(day, newyear_code::year_holding(day))
}

// A step, for dates: may a fast be kept on it?
#[tactic(auto, unfolding(fasts::specs::Steps::may_fast))]
pub fn may_fast(month: u64, date: u64) -> bool
    requires { (month ≤ 13) × (date ≤ 400) }
    ensures { result ≡ may_fast month date }
{
    [1_03, 1_04, 4_10, 7_11, 7_13, 11_17, 11_18, 12_09, 12_10].contains(&(100 * month + date))
}
