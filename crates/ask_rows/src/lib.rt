// What a loaded sheet is answered with: a year's rows, and what a walk hands out.
#![tactic(auto)]

use answering::sum;
use asking::Run;
use loaded::{Row, RowsAnswer};
use loaded_code::NoRows;
use show::mixed;
use std::io;

// Where the rows stand; then of the part that is shown, the refusal, the length and one number for its bytes.
fn print_place(
    out: &impl Print,
    place: RowsAnswer,
    shown: Result<&[u8], NoRows>,
) -> io::Result<()> {
    print!(out;
        "{} {} {}; shown ",
        place.refusal, place.offset, place.length
    )?;
    match shown {
        Ok(part) => println!(out; "0 {}: {}", part.len(), sum(part)),
        Err(none) => println!(out;
            "{} {}: {}",
            none.why.number(),
            none.part.len(),
            sum(none.part)
        ),
    }
}

pub fn print_rows(out: &impl Print, wing: u64, sheet: &[u8], year: u64) -> io::Result<()> {
    let place = loaded_code::rows_place(wing, sheet, year);
    print_place(out, place, loaded_code::sheet_rows(wing, sheet, year))
}

pub fn print_rows_of_two(
    out: &impl Print,
    named: u64,
    sheet_1: &[u8],
    sheet_2: &[u8],
    year: u64,
) -> io::Result<()> {
    let place = loaded_code::sheets_place(named, sheet_1, sheet_2, year);
    let part = loaded_code::sheets_rows(named, sheet_1, sheet_2, year);
    print_place(out, place, part)
}

// The most calls of a walk: no sheet has so many rows.
const MOST_CALLS: u64 = 10_000;

// What the calls of a walk hand out: a row each, and when the rows have ended one that says so.
#[derive(Drop)]
struct Calls<'a> {
    sheet: &'a [u8],
    row: u64,
}

impl<'a> Iterator for Calls<'a> {
    type Item = Row;

    fn next(&mut self) -> Option<Row> {
        let step = loaded_code::step_at(self.sheet, self.row);
        self.row = step.next;
        Some(step.row)
    }
}

// What refuses the walk; then for each call whether there is a row, its first day, its length and its wing.
fn print_calls(out: &impl Print, wing: u64, sheet: &[u8], calls: usize) -> io::Result<()> {
    let begun = loaded_code::first_row(wing, sheet);
    println!(out; "walk {}", begun.refusal)?;
    let row = begun.row;
    for row in (Calls { sheet, row }).take(calls) {
        println!(out;
            "row {} {} {} {}",
            row.more, row.first, row.length, row.wing
        )?;
    }
    Ok(())
}

fn with_row(sum: u64, first: u64, length: u64, wing: u64) -> u64 {
    mixed(mixed(mixed(sum, first), length), wing)
}

fn sum_of_calls(wing: u64, sheet: &[u8], calls: usize) -> u64 {
    let row = loaded_code::first_row(wing, sheet).row;
    (Calls { sheet, row }).take(calls).fold(
        0,
        |sum, row| with_row(sum, row.first, row.length, row.wing),
    )
}

// None for too many calls.
pub fn print_walk(out: &impl Print, wing: u64, sheet: &[u8], calls: u64) -> Option<io::Result<()>> {
    if MOST_CALLS < calls {
        return None;
    }
    Some(print_calls(out, wing, sheet, calls as usize))
}

// None for too many calls.
pub fn print_walk_sum(
    out: &impl Print,
    wing: u64,
    sheet: &[u8],
    calls: u64,
) -> Option<io::Result<()>> {
    if MOST_CALLS < calls {
        return None;
    }
    Some(println!(out; "{}", sum_of_calls(wing, sheet, calls as usize)))
}

// The rows of the part that is shown.
fn with_part(sum: u64, part: &[u8]) -> u64 {
    let (rows, _) = part.as_chunks::<6>();
    rows.iter().fold(sum, |sum, [a, b, c, d, length, wing]| {
        let first = u32::from_le_bytes([*a, *b, *c, *d]);
        with_row(sum, u64::from(first), u64::from(*length), u64::from(*wing))
    })
}

fn sum_of_years(wing: u64, sheet: &[u8], years: Run) -> u64 {
    let mut sum = 0;
    for year in years {
        if let Ok(part) = loaded_code::sheet_rows(wing, sheet, year) {
            sum = with_part(sum, part);
        }
    }
    sum
}

// None for a run of too many years.
pub fn print_rows_sum(
    out: &impl Print,
    wing: u64,
    sheet: &[u8],
    first: u64,
    last: u64,
) -> Option<io::Result<()>> {
    let years = Run::new(first, last, 10_001)?;
    Some(println!(out; "{}", sum_of_years(wing, sheet, years)))
}
