// The code that compares a sheet with the calendar: every year's length and every row, with its wing byte, is worked out once
// more and compared with the bytes where they lie. One year's stretches are worked out at a time, into entries of their own,
// since there is no heap; no sheet is written for it. A wing is a number here, and no `Wing`: the definitions compare a row's
// byte with any number (`content_agrees`).
#![tactic(auto)]

ghost use Rattle.std.specs.Prelude.{◌≡◌, ◌+◌, ◌*◌, ◌/◌, ◌≤◌, length as list_length};
ghost use Rattle.layout.specs.Layout.{rows_offset};
ghost use Rattle.sheet.specs.Promises.{offset_told, rows_told};
ghost use Rattle.content.specs.Content.{row_agrees, rows_agree, year_agrees, content_agrees};
ghost use Rattle.content_code.specs.Steps.{RowsWithin};

use layout_code::number_at;
use newyear_code::Span;
use sheet_years::Years;

// Does the row at a place tell this first day and this length, and has it the wing's byte?
fn row_agrees(wing: u64, sheet: &[u8], at: usize, first: u64, days: u64) -> bool
    requires { at + 6 ≤ list_length sheet.now }
    ensures { result ≡ row_agrees wing sheet.now at first days }
{
    (number_at::<4>(sheet, at) == first)
        & ((number_at::<1>(sheet, at + 4) == days) & (number_at::<1>(sheet, at + 5) == wing))
}

// Are the rows from a place on those of a list of stretches?
fn rows_agree(wing: u64, sheet: &[u8], at: usize, list: &[u64]) -> bool
    requires { (list_length list.now ≤ 120) × (at + 6 * (list_length list.now / 2) ≤ list_length sheet.now) }
    ensures { result ≡ rows_agree wing sheet.now at list.now (list_length list.now / 2) }
{
    let mut agree = true;
    for (k, stretch) in list.chunks_exact(2).enumerate() {
        agree &= row_agrees(wing, sheet, at + 6 * k, stretch[0], stretch[1]);
    }
    agree
}

// Are the length and the rows that entry i of the index tells of those of the year?
fn year_agrees(wing: u64, sheet: &[u8], i: u64, span: Span) -> bool
    requires { (rows_offset (i + 1) ≤ list_length sheet.now)
        × (offset_told sheet.now i + 6 * rows_told sheet.now i ≤ list_length sheet.now) }
    ensures { result ≡ year_agrees wing sheet.now i span.year }
{
    let entry = 16 + 8 * i as usize;
    if number_at::<2>(sheet, entry + 6) != span.length {
        return false;
    }
    let mut list = [0u64; stretches_code::STRETCHES_ROOM];
    let entries = stretches_code::year_rows(wing, span, &mut list);
    if number_at::<2>(sheet, entry + 4) != entries as u64 / 2 {
        return false;
    }
    rows_agree(
        wing,
        sheet,
        number_at::<4>(sheet, entry) as usize,
        &list[..entries],
    )
}

// A step: are the lengths and the rows of the years the calendar's for the wing?
pub fn content_agrees(wing: u64, sheet: &[u8], years: Years) -> bool
    requires { (rows_offset years.count ≤ list_length sheet.now) × RowsWithin sheet.now years.count }
    ensures { result ≡ content_agrees wing sheet.now years.first years.count }
{
    for i in 0..years.count {
        if !year_agrees(wing, sheet, i, newyear_code::year_span(years.first + i)) {
            return false;
        }
    }
    true
}
