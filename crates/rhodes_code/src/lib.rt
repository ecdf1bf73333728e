// The code that answers with New Year by Rhodes' closed formula, step by step as she has them.
#![tactic(auto)]

mod august;
mod steps;

ghost use Rattle.std.specs.Prelude.{◌≡◌};
ghost use Rattle.rhodes.specs.Answers.{rhodes_answer};

use august::day_of_august;
use molad_code::LAST_NEW_YEAR;
use newyear::NewYearAnswer;
use refusals::Refusal;
pub use steps::{Route, route_of};

// Refusal 1 for a year outside 1..10,000.
pub fn new_year_rhodes(year: u64) -> NewYearAnswer
    ensures { result ≡ rhodes_answer year }
{
    if !(1..=LAST_NEW_YEAR).contains(&year) {
        return NewYearAnswer {
            refusal: Refusal::BadYear as u64,
            ..NewYearAnswer::default()
        };
    }
    let route = route_of(year);
    let august = route.august + route.delay;
    let day = day_of_august(year, august);
    NewYearAnswer {
        refusal: 0,
        day,
        weekday: days::weekday_of(day),
        molad_day: day_of_august(year, route.molad_august),
        molad_hour: route.molad_part / 1080,
        molad_part: route.molad_part % 1080,
        delay: august - route.molad_august,
        cause: route.cause,
    }
}
