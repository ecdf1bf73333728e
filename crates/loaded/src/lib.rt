// What a loaded sheet holds: the rows of a year, and one row after another.
//
// Nothing is taken out of bytes that are not accepted (`accepted`). What is answered is still inside the sheet: a part of the
// lent bytes, not a copy.
//
// Here stand the rules, in specs/, and what follows from them. The code, with the walker that keeps a lent sheet, is in
// `loaded_code`.
#![tactic(auto)]

// A row: the first day and the length of a stretch, and its wing. Where no row is left `more` is 0, as is all else; else 1:
// C is given it by bd_walk_next.
#[repr(C)]
#[derive(Clone, Copy, Default)]
pub struct Row {
    pub more: u64,
    pub first: u64,
    pub length: u64,
    pub wing: u64,
}

// A row, and the number of the row after it.
#[derive(Drop)]
pub struct Stepped {
    pub row: Row,
    pub next: u64,
}

// Why no walk begins, or 0, and the number of its first row, as the definition `begun_at` tells and C is given it by
// bd_walk_begin.
#[derive(Drop)]
pub struct Begun {
    pub refusal: u64,
    pub row: u64,
}

// Where a year's rows stand: from which byte of the sheet on, and how many bytes they are.
// C is given this by bd_sheet_rows and bd_sheets_rows: the refusal is a number, and zeros stand beside it.
#[repr(C)]
#[derive(Default, Drop)]
pub struct RowsAnswer {
    pub refusal: u64,
    pub offset: u64,
    pub length: u64,
}
