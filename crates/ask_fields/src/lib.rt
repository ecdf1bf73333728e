// A sheet by document 02's layout, read by no part of the library: its bytes to the base 16, `->`, and the numbers that they
// stand for; a line each for the header, each entry of the index, and each row.
#![tactic(auto)]

ghost use Rattle.std.specs.Prelude.{◌≤◌};

use std::io;

// The number that bytes stand for, the least first.
fn number(bytes: &[u8]) -> u64 {
    bytes
        .iter()
        .rev()
        .fold(0, |number, byte| number << 8 | u64::from(*byte))
}

// As many bytes as there are of so many at the start, and those behind them.
fn parted(bytes: &[u8], width: usize) -> (&[u8], &[u8]) {
    bytes.split_at(width.min(bytes.len()))
}

fn number_at(sheet: &[u8], place: u64, width: usize) -> u64 {
    number(parted(from(sheet, place), width).0)
}

// The bytes from a place on, if it lies on the sheet.
fn from(sheet: &[u8], place: u64) -> &[u8] {
    parted(sheet, place as usize).1
}

// An item of so many bytes, and the numbers in it, in as many bytes each as `widths` tells. Behind the end of the sheet there are
// noughts.
fn print_item(out: &impl Print, item: &[u8], size: usize, widths: &[usize]) -> io::Result<()> {
    for byte in item {
        print!(out; " {byte:02x}")?;
    }
    for _ in item.len()..size {
        print!(out; " 00")?;
    }
    print!(out; " ->")?;
    let mut left = item;
    for width in widths {
        let (bytes, later) = parted(left, *width);
        print!(out; " {}", number(bytes))?;
        left = later;
    }
    println!(out; "")
}

// So many entries or rows, as long as they begin on the sheet.
fn print_items(
    out: &impl Print,
    bytes: &[u8],
    items: u64,
    size: usize,
    widths: &[usize],
) -> io::Result<()>
    requires { 1 ≤ size }
{
    for item in bytes.chunks(size).take(items as usize) {
        print_item(out, item, size, widths)?;
    }
    Ok(())
}

// As many entries and rows as the header tells, from where it tells.
pub fn print(out: &impl Print, sheet: &[u8]) -> io::Result<()> {
    let entries = number_at(sheet, 0, 2);
    let rows = number_at(sheet, 4, 4);
    let index = from(sheet, number_at(sheet, 8, 4));
    let listed = from(sheet, number_at(sheet, 12, 4));
    print_items(out, sheet, 1, 16, &[2, 2, 4, 4, 4])?;
    print_items(out, index, entries, 8, &[4, 2, 2])?;
    print_items(out, listed, rows, 6, &[4, 1, 1])
}
