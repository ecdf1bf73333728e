// One row after another.
ghost use Rattle.std.specs.Prelude.{◌≡◌, ◌+◌, ◌≤◌, true, false, MatchOption, length as list_length};
ghost use Rattle.loaded.specs.Walk.{row_place, has_row, step_at, begun_at};
ghost use Rattle.std.specs.Iterator.{at_most};
ghost use Rattle.loaded_code.specs.Walker.{begun_on, HandsOut, bytes_ahead};

use layout_code::number_at;
use loaded::{Begun, Row, Stepped};

// The row of a walk that has ended before it began: no memory has room for so many.
const ENDED_ROW: u64 = u64::MAX;

// Where the row of this number stands, if the sheet has it: the header counts it, and all its bytes are there.
fn row_place(sheet: &[u8], row: u64) -> Option<usize>
    ensures { MatchOption result (has_row sheet.now row ≡ false)
        (λ at. (has_row sheet.now row ≡ true) × (at ≡ row_place sheet.now row) × (at + 6 ≤ list_length sheet.now)) }
{
    if sheet.len() < 16 {
        return None;
    }
    if number_at::<4>(sheet, 4) <= row {
        return None;
    }
    let at = (16 + 8 * number_at::<2>(sheet, 0) + 6 * row) as usize;
    if at + 5 < sheet.len() { Some(at) } else { None }
}

// A step: the row of this number and the number after it; where there is no such row, no row and the same number. C is handed
// the row as it is, so that `more` tells it whether there is one.
pub fn step_at(sheet: &[u8], row: u64) -> Stepped
    ensures { result ≡ step_at sheet.now row }
{
    match row_place(sheet, row) {
        Some(at) => Stepped {
            row: Row {
                more: 1,
                first: number_at::<4>(sheet, at),
                length: number_at::<1>(sheet, at + 4),
                wing: number_at::<1>(sheet, at + 5),
            },
            next: row + 1,
        },
        None => Stepped {
            row: Row::default(),
            next: row,
        },
    }
}

// A step: where a walk through a wing's sheet begins. Refused with 15 for the wing, or with 16 to 19 for the bytes, it has
// ended already: C's walker is set either way, so that the number stands beside the row.
pub fn first_row(wing: u64, sheet: &[u8]) -> Begun
    ensures { result ≡ begun_at wing sheet.now }
{
    match accepted_code::sheet_refusal(wing, sheet) {
        None => Begun { refusal: 0, row: 0 },
        Some(why) => Begun {
            refusal: why.number(),
            row: ENDED_ROW,
        },
    }
}

// A sheet, and the number of the row that is handed out next.
#[derive(Drop)]
pub struct Walker<'a> {
    pub sheet: &'a [u8],
    pub row: u64,
}

// A walk from the sheet's first row on, with the refusal number, as of `first_row`. A walk that is refused is begun too, and has
// ended (theorem `walk_of`), so that the number goes out beside it and not in place of it.
pub fn begin<'a>(wing: u64, sheet: &'a [u8], refusal: &mut u64) -> Walker<'a>
    ensures { (result ≡ begun_on wing sheet.entry) × (refusal.new ≡ (begun_at wing sheet.now).refusal) }
{
    let b = first_row(wing, sheet);
    *refusal = b.refusal;
    Walker { sheet, row: b.row }
}

impl<'a> Iterator for Walker<'a> {
    type Item = Row;

    ghost next_gives = { HandsOut };

    ghost remaining = { λ walker. at_most (bytes_ahead walker) };

    // The next row, until none is left.
    fn next(&mut self) -> Option<Row> {
        let step = step_at(self.sheet, self.row);
        self.row = step.next;
        if step.row.more == 0 {
            None
        } else {
            Some(step.row)
        }
    }
}
