// The code that asks whether bytes are accepted for a wing's sheet. Every number that is read off a sheet is at most 4 bytes
// long and is worked with in 64 bits, so that no sum and no product of them wraps.
#![tactic(auto)]

ghost use Rattle.std.specs.Prelude.{◌≡◌, ◌&&◌, ◌≤◌, eqb, IfOk, length as list_length};
ghost use Rattle.refusals.specs.Refusals.{refusal_in, number_if};
ghost use Rattle.layout.specs.Layout.{rows_offset};
ghost use Rattle.sheet.specs.Promises.{rows_told_before};
ghost use Rattle.accepted.specs.Check.{years_told, first_told, index_placed, placed, loaded_refusal};

use layout_code::number_at;
use refusals::Refusal;
use rest_table::Wing;
use sheet_years::Years;

// Does the index lead each year to the rows behind those of the years before it, and has it so many rows in all?
fn index_placed(sheet: &[u8], years: u64, rows: u64) -> bool
    requires { (years ≤ 100) × (rows_offset years ≤ list_length sheet.now) }
    ensures { result ≡ index_placed sheet.now years && eqb rows (rows_told_before sheet.now years) }
{
    let mut placed = true;
    let mut before = 0;
    for i in 0..years {
        let entry = 16 + 8 * i as usize;
        placed &= number_at::<4>(sheet, entry) == 16 + 8 * years + 6 * before;
        before += number_at::<2>(sheet, entry + 4);
    }
    placed & (rows == before)
}

// Do header, index and size fit each other?
fn all_placed(sheet: &[u8], years: u64) -> bool
    requires { (16 ≤ list_length sheet.now) × ((years ≡ years_told sheet.now) × (years ≤ 100)) }
    ensures { result ≡ placed sheet.now }
{
    let rows = number_at::<4>(sheet, 4);
    let fits = (number_at::<4>(sheet, 8) == 16)
        & (number_at::<4>(sheet, 12) == 16 + 8 * years)
        & (sheet.len() as u64 == 16 + 8 * years + 6 * rows);
    fits && index_placed(sheet, years, rows)
}

// Why the bytes are not accepted for a sheet of the wing, if they are not. Refusal 15: a wing that is neither 1 nor 2. 16: fewer
// than 16 bytes. 17: a count of years, a first or a last year that no writer puts on a sheet. 18: header, index and size do not
// fit each other. 19: rows, wing byte or year lengths differ from the calendar's. It is an answer of one word, which a compiler
// asks once for many questions about the same sheet.
pub fn sheet_refusal(wing: u64, sheet: &[u8]) -> Option<Refusal>
    ensures { number_if result ≡ loaded_refusal wing sheet.now }
{
    let wing = match Wing::try_from(wing) {
        Ok(wing) => wing,
        Err(why) => return Some(why),
    };
    if sheet.len() < 16 {
        return Some(Refusal::SheetTooShort);
    }
    let Ok(years) = Years::new(number_at::<2>(sheet, 2), number_at::<2>(sheet, 0)) else {
        return Some(Refusal::BadSheetYears);
    };
    if !all_placed(sheet, years.count) {
        return Some(Refusal::BadSheetLayout);
    }
    if !content_code::content_agrees(wing.number(), sheet, years) {
        return Some(Refusal::BadSheetContent);
    }
    None
}

// The years of a sheet of the wing, or why the bytes are not accepted for one.
pub fn accepted_years(wing: u64, sheet: &[u8]) -> Result<Years, Refusal>
    ensures refusal { refusal_in result ≡ loaded_refusal wing sheet.now }
    ensures years { IfOk result (λ years. (years.first ≡ first_told sheet.now) × (years.count ≡ years_told sheet.now)) }
{
    match sheet_refusal(wing, sheet) {
        Some(why) => Err(why),
        None => Ok(Years {
            first: number_at::<2>(sheet, 2),
            count: number_at::<2>(sheet, 0),
        }),
    }
}
