// The code that writes the sheet of a wing's stretches. How many rows there are is told by the years themselves, so that each
// year's stretches are worked out twice: first to count them, and so to know how many bytes are wanted, then to write them.
// Nothing is written before it is known that all of it has room.
#![tactic(auto)]

ghost use Rattle.std.specs.Prelude.{◌≡◌, MatchResult};
ghost use Rattle.lists.specs.Lists.{no_list};
ghost use Rattle.refusals.specs.Refusals.{number_of};
ghost use Rattle.rest_table.specs.Wing.{number_of as wing_number};
ghost use Rattle.sheet.specs.Answers.{wing_sheet, wing_sheet_buffer};
ghost use Rattle.sheet_code.specs.Steps.{written_answer, written_buffer};

use lists::ListAnswer;
use refusals::Refusal;
use rest_table::Wing;
pub use sheet_years::MOST_YEARS;
use sheet_years::Years;

// The most bytes that any sheet takes, in either wing (theorem `most_bytes_lem`).
pub const SHEET_ROOM: usize = 34_650;

// The sheet of years that a sheet holds. Refusal 10 for a buffer of too few bytes, telling how many are wanted.
fn write_sheet(wing: Wing, years: Years, out: &mut [u8]) -> ListAnswer
    ensures { (result ≡ written_answer (wing_number wing) years.first years.count out.old)
        × (out.new ≡ written_buffer (wing_number wing) years.first years.count out.old) }
{
    let rows = sheet_years::count_rows(wing, years);
    let size = 16 + 8 * years.count + 6 * rows;
    if (out.len() as u64) < size {
        return ListAnswer {
            refusal: Refusal::BufferTooShort as u64,
            count: size,
        };
    }
    layout_code::put_header(out, years.count, years.first, rows);
    sheet_years::write_years(wing, years, out);
    ListAnswer {
        refusal: 0,
        count: size,
    }
}

// The same, where any numbers may be asked. Refusal 15 for the wing, then 11 or 1 for the years.
fn write_asked(
    wing: u64,
    first_year: u64,
    years: u64,
    out: &mut [u8],
) -> Result<ListAnswer, Refusal>
    ensures answer { MatchResult result (λ answer. answer ≡ wing_sheet wing first_year years out.old)
        (λ why. no_list (number_of why) ≡ wing_sheet wing first_year years out.old) }
    ensures left { out.new ≡ wing_sheet_buffer wing first_year years out.old }
{
    let wing = Wing::try_from(wing)?;
    let years = Years::new(first_year, years)?;
    Ok(write_sheet(wing, years, out))
}

// The sheet of a wing for so many years, from the first year on. Refusal 15 for a wing that is neither 1 nor 2; 11 for
// years that are not 1 to 100; 1 if the first or the last of them lies outside 1..9999; 10 for a buffer of too few bytes,
// telling how many are wanted; else the answer tells how many were written.
pub fn sheet_write(wing: u64, first_year: u64, years: u64, out: &mut [u8]) -> ListAnswer
    ensures { (result ≡ wing_sheet wing first_year years out.old) × (out.new ≡ wing_sheet_buffer wing first_year years out.old) }
{
    match write_asked(wing, first_year, years, out) {
        Ok(answer) => answer,
        Err(why) => ListAnswer {
            refusal: why.number(),
            ..ListAnswer::default()
        },
    }
}
