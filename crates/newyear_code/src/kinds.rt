// The fourteen kinds of year.
ghost use Rattle.std.specs.Prelude.{◌≡◌};
ghost use Rattle.newyear.specs.Kinds.{IsLength, kind_code, IsKind, kind_number};
ghost use Rattle.newyear.specs.Answers.{kind_answer};

use crate::asked::span_of_year;
use newyear::KindAnswer;

// The first kind with New Year on each weekday. No weekday has 0, and New Year falls on no Sunday, Wednesday or Friday.
const FIRST_KIND: [u8; 8] = [0, 0, 1, 5, 0, 7, 0, 11];

// The number of one of the fourteen. With New Year on a Tuesday there is one kind of common years and one of leap years;
// on the other days there are two of each, the second of which has 355 or 385 days.
fn kind_number(weekday: u64, length: u64) -> u64
    requires { (IsLength length) × (IsKind (kind_code weekday length)) }
    ensures { result ≡ kind_number (kind_code weekday length) }
{
    let common = laws::pick(weekday == 3, 1, 2);
    let before = laws::pick(383 <= length, common, 0);
    let second = u64::from((length == 355) | (length == 385));
    FIRST_KIND[weekday as usize] as u64 + before + second
}

// Refusal 1 for a year outside 1..9999.
pub fn kind(year: u64) -> KindAnswer
    ensures { result ≡ kind_answer year }
{
    match span_of_year(year) {
        Ok(span) => {
            let weekday = days::weekday_of(span.new_year);
            KindAnswer {
                refusal: 0,
                kind: kind_number(weekday, span.length),
                weekday,
                length: span.length,
            }
        }
        Err(why) => KindAnswer {
            refusal: why.number(),
            ..KindAnswer::default()
        },
    }
}
