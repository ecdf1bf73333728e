// Which stretch is next.
ghost use Rattle.std.specs.Prelude.{◌≡◌, ◌≤◌};
ghost use Rattle.std.proofs.Math.IntN.{sub_ℕ};
ghost use Rattle.days.specs.Range.{InRange};
ghost use Rattle.newyear.specs.NewYear.{new_year as the_new_year, year_length, year_of};
ghost use Rattle.rest.specs.Wings.{table_of};
ghost use Rattle.rest_table.specs.Wing.{number_of};
ghost use Rattle.stretch.specs.Answers.{stretch_answer, wing_stretch};
ghost use Rattle.stretch_code.specs.Found.{found_answer, asked_answer};

use crate::found::NextStretch;
use crate::year_days::YearDays;
use newyear_code::Span;
use refusals::Refusal;
use rest_table::Wing;
use stretch::StretchAnswer;

// A step, for days near the range: first day minus the day asked, with its sign. No other number of a stretch, or of a
// record, can be below zero.
pub fn days_left(first: u64, day: u64) -> i64
    requires { (first ≤ 5000000) × (day ≤ 5000000) }
    ensures { result ≡ sub_ℕ first day }
{
    (first as i64) - (day as i64)
}

// A step, for a day in range, by the New Year and the length of its year. None where no stretch in range ends on or after the
// day.
pub fn stretch_of(wing: Wing, day: u64, new_year: u64, length: u64) -> Option<NextStretch>
    requires { (InRange day) × ((new_year ≡ the_new_year (year_of day)) × (length ≡ year_length (year_of day))) }
    ensures { found_answer result ≡ stretch_answer (table_of (number_of wing)) day }
{
    let year = YearDays {
        wing,
        weekday: days::weekday_of(new_year),
        length,
    };
    let run = year.run_for(day - new_year);
    let first = new_year + run.first;
    if days::LAST_DAY < first {
        return None;
    }
    Some(NextStretch {
        first,
        length: run.past - run.first,
        days_left: days_left(first, day),
    })
}

// A step, for a day in range and the span of its year. None as above.
pub fn stretch_in(wing: Wing, day: u64, span: Span) -> Option<NextStretch>
    requires { (InRange day) × (span.year ≡ year_of day) }
    ensures { found_answer result ≡ stretch_answer (table_of (number_of wing)) day }
{
    stretch_of(wing, day, span.new_year, span.length)
}

// A step, for the days of the range. None as above.
pub fn stretch_from(wing: Wing, day: u64) -> Option<NextStretch>
    requires { InRange day }
    ensures { found_answer result ≡ stretch_answer (table_of (number_of wing)) day }
{
    stretch_in(wing, day, newyear_code::year_holding(day))
}

#[tactic(auto, unfolding(stretch::specs::Answers::stretch_answer))]
fn asked(wing: u64, day: u64) -> Result<NextStretch, Refusal>
    ensures { asked_answer result ≡ wing_stretch wing day }
{
    let wing = Wing::try_from(wing)?;
    let span = newyear_code::span_of_day(day)?;
    stretch_in(wing, day, span).ok_or(Refusal::NoStretch)
}

// What is told of a stretch that was asked for, or why there is none.
pub fn answered(next: Result<NextStretch, Refusal>) -> StretchAnswer
    ensures { result ≡ asked_answer next }
{
    match next {
        Ok(s) => StretchAnswer {
            refusal: 0,
            first: s.first,
            length: s.length,
            days_left: s.days_left,
        },
        Err(why) => StretchAnswer {
            refusal: why.number(),
            ..StretchAnswer::default()
        },
    }
}

// Refusal 15 for a wing that is neither 1 nor 2; 4 for a day outside the range; 9 where no stretch in range ends on or
// after the day.
pub fn stretch(wing: u64, day: u64) -> StretchAnswer
    ensures { result ≡ wing_stretch wing day }
{
    answered(asked(wing, day))
}
