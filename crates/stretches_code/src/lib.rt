// The code that answers which stretches of a wing's rest days a year has. No stretch crosses a New Year, so it walks through
// the dates of the year from one to the next, and lists a run of rest days when it has ended.
#![tactic(auto)]

pub mod rows;

ghost use Rattle.std.specs.Prelude.{◌≡◌, ◌≤◌, length as list_length};
ghost use Rattle.laws.specs.Buffer.{overwrite};
ghost use Rattle.rest.specs.Wings.{table_of};
ghost use Rattle.stretches.specs.Stretches.{stretch_rows};
ghost use Rattle.stretches.specs.Promises.{stretches_room};
ghost use Rattle.stretches.specs.Answers.{wing_stretches, wing_stretches_buffer};

use lists::ListAnswer;
use newyear_code::Span;
use refusals::Refusal;
use rest_table::Wing;

// The most entries that the stretches of a year take, in either wing.
pub const STRETCHES_ROOM: usize = 120;

// A step: the same rows as `rows::year_rows`, by a wing's number, for any number: the definition of a sheet's content speaks of
// any.
pub fn year_rows(wing: u64, span: Span, out: &mut [u64]) -> usize
    requires { stretches_room ≤ list_length out.old }
    ensures { (result ≡ list_length (stretch_rows (table_of wing) span.year)) × ((result ≤ stretches_room)
        × (out.new ≡ overwrite out.old (stretch_rows (table_of wing) span.year))) }
{
    rows::year_rows(Wing::of(wing), span, out)
}

// First day and length of each stretch that begins in the year, rising, two entries each. Refusal 15 for a wing that is
// neither 1 nor 2; 1 for a year outside 1..9999; 10 for a buffer that is too short, telling how many entries are wanted;
// else the answer tells how many stretches.
pub fn stretches(wing: u64, year: u64, out: &mut [u64]) -> ListAnswer
    ensures { (result ≡ wing_stretches wing year out.old) × (out.new ≡ wing_stretches_buffer wing year out.old) }
{
    let (wing, span) = match rest_code::asked(wing, year) {
        Ok(asked) => asked,
        Err(why) => return ListAnswer {
            refusal: why.number(),
            ..ListAnswer::default()
        },
    };
    // An array of fixed size with a count beside it, since this library has no heap.
    let mut rows = [0u64; STRETCHES_ROOM];
    let wanted = rows::year_rows(wing, span, &mut rows);
    if out.len() < wanted {
        return ListAnswer {
            refusal: Refusal::BufferTooShort as u64,
            count: wanted as u64,
        };
    }
    out[..wanted].copy_from_slice(&rows[..wanted]);
    ListAnswer {
        refusal: 0,
        count: wanted as u64 / 2,
    }
}
