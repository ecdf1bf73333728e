// The code that answers when the molad of a month is, with the months before a year.
#![tactic(auto)]

mod asked;
mod months;
mod parts;

ghost use Rattle.std.specs.Prelude.{◌≡◌};
ghost use Rattle.molad.specs.Answers.{molad_answer};

pub use asked::molad_of;
use molad::MoladAnswer;
pub use months::{LAST_NEW_YEAR, LAST_YEAR, Months, months_before, no_month};
pub use parts::{Molad, molad_after};

// Refusal 1 for a year outside 1..9999; 2 for a code that is no month of the year.
pub fn molad(year: u64, month: u64) -> MoladAnswer
    ensures { result ≡ molad_answer year month }
{
    match molad_of(year, month) {
        Ok(molad) => MoladAnswer {
            refusal: 0,
            day: molad.day,
            hour: molad.hour(),
            part: molad.part(),
        },
        Err(why) => MoladAnswer {
            refusal: why.number(),
            ..MoladAnswer::default()
        },
    }
}
