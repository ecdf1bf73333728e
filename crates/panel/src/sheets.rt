// The sheet that the panels load, written and read back. The lent bytes are as their owner's contract leaves them.
ghost use Rattle.std.specs.Prelude.{◌≡◌};
ghost use Rattle.face.specs.Face.{bd_sheet_write, bd_sheet_write_leaves, bd_sheet_rows, bd_sheets_rows, bd_walk_begin, bd_walk_next};

#[unsafe(no_mangle)]
pub extern "C" fn bd_sheet_write(
    wing: u64,
    first_year: u64,
    years: u64,
    out: &mut [u8],
) -> lists::ListAnswer
    ensures { (result ≡ bd_sheet_write wing first_year years out.old) × (out.new ≡ bd_sheet_write_leaves wing first_year years out.old) }
{
    sheet_code::sheet_write(wing, first_year, years, out)
}

// A loaded sheet, as its bytes lie in the caller's memory: where a year's rows stand in it.
#[unsafe(no_mangle)]
pub extern "C" fn bd_sheet_rows(wing: u64, sheet: &[u8], year: u64) -> loaded::RowsAnswer
    ensures { result ≡ bd_sheet_rows wing sheet.now year }
{
    loaded_code::rows_place(wing, sheet, year)
}

#[unsafe(no_mangle)]
pub extern "C" fn bd_sheets_rows(
    named: u64,
    sheet_1: &[u8],
    sheet_2: &[u8],
    year: u64,
) -> loaded::RowsAnswer
    ensures { result ≡ bd_sheets_rows named sheet_1.now sheet_2.now year }
{
    loaded_code::sheets_place(named, sheet_1, sheet_2, year)
}

// The caller holds the walker, whose state is the number of the row that comes next, and lends the sheet at each call.
#[unsafe(no_mangle)]
pub extern "C" fn bd_walk_begin(walker: &mut u64, wing: u64, sheet: &[u8]) -> u64
    ensures { (result ≡ (bd_walk_begin wing sheet.now).refusal) × (walker.new ≡ (bd_walk_begin wing sheet.now).row) }
{
    let b = loaded_code::first_row(wing, sheet);
    *walker = b.row;
    b.refusal
}

#[unsafe(no_mangle)]
pub extern "C" fn bd_walk_next(walker: &mut u64, sheet: &[u8]) -> loaded::Row
    ensures { (result ≡ (bd_walk_next walker.old sheet.now).row) × (walker.new ≡ (bd_walk_next walker.old sheet.now).next) }
{
    let s = loaded_code::step_at(sheet, *walker);
    *walker = s.next;
    s.row
}
