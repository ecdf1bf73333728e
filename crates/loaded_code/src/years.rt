// A year's own rows, in one sheet and in the one of two that is named.
ghost use Rattle.std.specs.Prelude.{◌≡◌, ◌+◌};
ghost use Rattle.loaded.specs.Rows.{rows_answer, rows_of, named_sheet, named_answer};
ghost use Rattle.loaded_code.specs.Place.{IsPlace};
ghost use Rattle.loaded_code.specs.Shown.{shown, refusal_told};

use layout_code::number_at;
use loaded::RowsAnswer;
use refusals::Refusal;

// From which byte of a sheet on a year's rows stand, and how many bytes they are.
#[derive(Clone, Copy)]
struct Place {
    offset: u64,
    length: u64,
}

fn year_place(wing: u64, sheet: &[u8], year: u64) -> Result<Place, Refusal>
    ensures { IsPlace (rows_answer wing sheet.now year) result }
{
    if let Some(why) = accepted_code::sheet_refusal(wing, sheet) {
        return Err(why);
    }
    let first_year = number_at::<2>(sheet, 2);
    if !(first_year..first_year + number_at::<2>(sheet, 0)).contains(&year) {
        return Err(Refusal::BadYear);
    }
    let entry = 16 + 8 * (year - first_year) as usize;
    Ok(Place {
        offset: number_at::<4>(sheet, entry),
        length: 6 * number_at::<2>(sheet, entry + 4),
    })
}

// The place of a year's rows in a wing's sheet. Refusal 15 for a wing that is neither 1 nor 2; 16 to 19 for bytes that are not
// accepted; 1 for a year that is not on the sheet.
pub fn rows_place(wing: u64, sheet: &[u8], year: u64) -> RowsAnswer
    ensures { result ≡ rows_answer wing sheet.now year }
{
    match year_place(wing, sheet, year) {
        Ok(place) => RowsAnswer {
            refusal: 0,
            offset: place.offset,
            length: place.length,
        },
        Err(why) => RowsAnswer {
            refusal: why.number(),
            ..RowsAnswer::default()
        },
    }
}

// Why no rows are shown, and the empty part that is shown in their place, at the sheet's first byte.
#[derive(Clone, Copy)]
pub struct NoRows<'a> {
    pub why: Refusal,
    pub part: &'a [u8],
}

// A year's rows, still inside the sheet. Refused as `rows_place` is.
pub fn sheet_rows<'a>(wing: u64, sheet: &'a [u8], year: u64) -> Result<&'a [u8], NoRows<'a>>
    ensures { ((shown result).now ≡ rows_of sheet.now (rows_answer wing sheet.now year))
        × (refusal_told result ≡ (rows_answer wing sheet.now year).refusal)
        × ((shown result).ref_ptr.0 ≡ sheet.entry.ref_ptr.0)
        × ((shown result).ref_ptr.1 ≡ sheet.entry.ref_ptr.1 + (rows_answer wing sheet.now year).offset) }
{
    match year_place(wing, sheet, year) {
        Ok(place) => {
            let start = place.offset as usize;
            let end = start + place.length as usize;
            Ok(&sheet[start..end])
        }
        Err(why) => Err(NoRows {
            why,
            part: &sheet[..0],
        }),
    }
}

// The same of two sheets, wing 1's and wing 2's, by the number of the one that is named, which names the wing too. Refusal 15,
// before all others, for a number that is neither 1 nor 2. The sheet that is not named is not looked at.
pub fn sheets_place(named: u64, sheet_1: &[u8], sheet_2: &[u8], year: u64) -> RowsAnswer
    ensures { result ≡ named_answer named sheet_1.now sheet_2.now year }
{
    if named == 2 {
        rows_place(named, sheet_2, year)
    } else {
        rows_place(named, sheet_1, year)
    }
}

// A year's rows, still inside the sheet that is named. Refused as `sheets_place` is; where neither sheet is named the empty part
// is one of sheet 1.
pub fn sheets_rows<'a>(
    named: u64,
    sheet_1: &'a [u8],
    sheet_2: &'a [u8],
    year: u64,
) -> Result<&'a [u8], NoRows<'a>>
    ensures { ((shown result).now ≡ rows_of (named_sheet named sheet_1.now sheet_2.now) (named_answer named sheet_1.now sheet_2.now year))
        × (refusal_told result ≡ (named_answer named sheet_1.now sheet_2.now year).refusal)
        × ((shown result).ref_ptr.0 ≡ named_sheet named sheet_1.entry.ref_ptr.0 sheet_2.entry.ref_ptr.0)
        × ((shown result).ref_ptr.1 ≡ named_sheet named sheet_1.entry.ref_ptr.1 sheet_2.entry.ref_ptr.1 + (named_answer named sheet_1.now sheet_2.now year).offset) }
{
    if named == 2 {
        sheet_rows(named, sheet_2, year)
    } else {
        sheet_rows(named, sheet_1, year)
    }
}
