// The years of a sheet, and its index and rows, counted and written year by year. A year's stretches are worked out into
// entries of their own: there is no heap.
#![tactic(auto)]

mod asked;
mod years;

ghost use Rattle.std.specs.Prelude.{◌≡◌, ◌+◌, ◌*◌, ◌/◌, ◌≤◌, length as list_length};
ghost use Rattle.std.proofs.lemmas.List.Edits.{sets};
ghost use Rattle.laws.specs.Joined.{joined};
ghost use Rattle.rest_table.specs.Wing.{number_of};
ghost use Rattle.layout.specs.Layout.{rows_offset};
ghost use Rattle.sheet.specs.Sheet.{row_of, rows_in, year_rows, rows_before, entry_of};

pub use asked::MOST_YEARS;
use newyear_code::Span;
use rest_table::Wing;
pub use years::Years;

// How many rows the year has.
fn rows_in(wing: Wing, span: Span) -> u64
    ensures { (result ≡ rows_in (number_of wing) span.year) × (result ≤ 60) }
{
    let mut list = [0u64; stretches_code::STRETCHES_ROOM];
    stretches_code::rows::year_rows(wing, span, &mut list) as u64 / 2
}

// How many rows the years have.
pub fn count_rows(wing: Wing, years: Years) -> u64
    ensures { (result ≡ rows_before (number_of wing) years.first years.count) × (result ≤ 60 * years.count) }
{
    let mut rows = 0;
    for k in 0..years.count {
        rows += rows_in(wing, newyear_code::year_span(years.first + k));
    }
    rows
}

// A row for each stretch of a list, from a place on.
fn write_list(wing: Wing, list: &[u64], out: &mut [u8], at: usize)
    requires { (list_length list.now ≤ 120) × (at + 6 * (list_length list.now / 2) ≤ list_length out.old) }
    ensures { out.new ≡ sets out.old at (joined (row_of (number_of wing) list.now) (list_length list.now / 2)) }
{
    for (k, stretch) in list.chunks_exact(2).enumerate() {
        layout_code::put_row(out, at + 6 * k, wing.number(), stretch[0], stretch[1]);
    }
}

// The rows of a year, from a place on, and how many they are.
fn write_year(wing: Wing, span: Span, out: &mut [u8], at: usize) -> usize
    requires { at + 6 * rows_in (number_of wing) span.year ≤ list_length out.old }
    ensures { (result ≡ rows_in (number_of wing) span.year) × ((result ≤ 60)
        × (out.new ≡ sets out.old at (year_rows (number_of wing) span.year))) }
{
    let mut list = [0u64; stretches_code::STRETCHES_ROOM];
    let entries = stretches_code::rows::year_rows(wing, span, &mut list);
    write_list(wing, &list[..entries], out, at);
    entries / 2
}

// The index, from byte 16 on, and the rows behind it.
pub fn write_years(wing: Wing, years: Years, out: &mut [u8])
    requires { rows_offset years.count + 6 * rows_before (number_of wing) years.first years.count ≤ list_length out.old }
    ensures { out.new ≡ sets (sets out.old 16 (joined (entry_of (number_of wing) years.first years.count) years.count))
        (rows_offset years.count) (joined (λ i. year_rows (number_of wing) (years.first + i)) years.count) }
{
    let mut at = 16 + 8 * years.count as usize;
    for i in 0..years.count {
        let span = newyear_code::year_span(years.first + i);
        let rows = write_year(wing, span, out, at);
        layout_code::put_entry(
            out,
            16 + 8 * i as usize,
            at as u64,
            rows as u64,
            span.length,
        );
        at += 6 * rows;
    }
}
