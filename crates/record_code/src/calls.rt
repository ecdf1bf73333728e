// A record set, moved on and moved back.
ghost use Rattle.std.specs.Prelude.{◌≡◌};
ghost use Rattle.rest_table.specs.Wing.{number_of};
ghost use Rattle.stretch_code.specs.Found.{found_answer};
ghost use Rattle.record.specs.Record.{joined};
ghost use Rattle.record.specs.Steps.{record_on, record_back};
ghost use Rattle.record.specs.Answers.{set_to, next_of, back_of};
ghost use Rattle.record_code.specs.Moves.{left};

use crate::dates;
use crate::moves::{Backward, Onward};
use fasts::Ahead;
use record::{Dated, DayRecord, Moved};
use refusals::Refusal;
use rest_table::Wing;
use stretch_code::NextStretch;

// The record as a call leaves it: a refusal alters nothing.
fn left(r: DayRecord, after: Result<DayRecord, Refusal>) -> Moved
    ensures { result ≡ left r after }
{
    match after {
        Ok(after) => Moved { refusal: 0, after },
        Err(why) => Moved {
            refusal: why.number(),
            after: r,
        },
    }
}

fn joined(wing: Wing, day: u64, x: Dated, s: Option<NextStretch>, f: Ahead) -> DayRecord
    ensures { result ≡ joined (number_of wing) day x (found_answer s) f }
{
    let without = DayRecord {
        day,
        wing: wing.number(),
        year: x.year,
        month: x.month,
        date: x.date,
        remaining: x.remaining,
        fast_month: f.month,
        fast_left: f.left,
        no_fast: f.none,
        ..DayRecord::default()
    };
    match s {
        Some(s) => DayRecord {
            first: s.first,
            length: s.length,
            days_left: s.days_left,
            ..without
        },
        None => DayRecord { none: 1, ..without },
    }
}

fn afresh(wing: u64, day: u64) -> Result<DayRecord, Refusal>
    ensures { (r : _) → left r result ≡ set_to r wing day }
{
    let wing = Wing::try_from(wing)?;
    let span = newyear_code::span_of_day(day)?;
    let x = dates::dated_in(day, span);
    let s = stretch_code::asked::stretch_in(wing, day, span);
    Ok(joined(wing, day, x.date, s, fasts_code::ahead_in(day, span)))
}

fn moved_on(r: DayRecord) -> Result<DayRecord, Refusal>
    ensures { left r result ≡ next_of r }
{
    if (r.day < days::FIRST_DAY) | (days::LAST_DAY <= r.day) {
        return Err(Refusal::DayOutOfRange);
    }
    let wing = Wing::try_from(r.wing)?;
    let day = r.day + 1;
    let on = Onward {
        record: r,
        wing,
        day,
    };
    Ok(joined(wing, day, on.date(), on.stretch(), on.fast()))
}

fn moved_back(r: DayRecord) -> Result<DayRecord, Refusal>
    ensures { left r result ≡ back_of r }
{
    if (r.day <= days::FIRST_DAY) | (days::LAST_DAY < r.day) {
        return Err(Refusal::DayOutOfRange);
    }
    let wing = Wing::try_from(r.wing)?;
    let day = r.day - 1;
    let back = Backward {
        record: r,
        wing,
        day,
    };
    let x = back.date();
    Ok(joined(wing, day, x.date, back.stretch(x), back.fast(x)))
}

// Refusal 15 for a wing that is neither 1 nor 2; 4 for a day outside the range.
pub fn set(r: DayRecord, wing: u64, day: u64) -> Moved
    ensures { result ≡ set_to r wing day }
{
    left(r, afresh(wing, day))
}

// Refusal 4 for a record whose day is outside the range, or its last day; 15 for a wing that is neither 1 nor 2, which no
// record has that was set.
pub fn next(r: DayRecord) -> Moved
    ensures { result ≡ next_of r }
{
    left(r, moved_on(r))
}

// The same, with the range's first day for its last.
pub fn back(r: DayRecord) -> Moved
    ensures { result ≡ back_of r }
{
    left(r, moved_back(r))
}
