// The code that hands out what a loaded sheet holds. Nothing is taken out of bytes that are not accepted.
#![tactic(auto)]

mod walk;
mod years;

pub use walk::{Walker, begin, first_row, step_at};
pub use years::{NoRows, rows_place, sheet_rows, sheets_place, sheets_rows};
