// The stretch of a wing that is named by a number, of which every other than 1 has the guest wing's table.
ghost use Rattle.std.specs.Prelude.{◌≡◌};
ghost use Rattle.days.specs.Range.{InRange};
ghost use Rattle.newyear.specs.NewYear.{new_year as the_new_year, year_length, year_of};
ghost use Rattle.rest.specs.Wings.{table_of};
ghost use Rattle.stretch.specs.Answers.{stretch_answer};

use crate::asked;
use refusals::Refusal;
use rest_table::Wing;
use stretch::StretchAnswer;

// A step, for a day in range, by the New Year and the length of its year. Refusal 9 where no stretch in range ends on or after
// the day. It stays, for any number, since docs/DECISIONS.md names it; `asked::stretch_of` is the same of a `Wing`.
pub fn stretch_in(wing: u64, day: u64, new_year: u64, length: u64) -> StretchAnswer
    requires { (InRange day) × ((new_year ≡ the_new_year (year_of day)) × (length ≡ year_length (year_of day))) }
    ensures { result ≡ stretch_answer (table_of wing) day }
{
    let next = asked::stretch_of(Wing::of(wing), day, new_year, length);
    asked::answered(next.ok_or(Refusal::NoStretch))
}
