// The code that writes what the sheet program writes.
#![tactic(auto)]

ghost use Rattle.std.specs.Prelude.{◌≡◌};
ghost use Rattle.filing.specs.Answers.{sheet_on_lines, sheet_on_lines_buffer};

use show::Refused;
use std::io;

// Refusal 15 for a first line that holds no wing; 11 for a third that is not 1 to 100 years; 1 for a second that holds no
// year, or one from which the last of the years lies outside; 10 for a buffer of too few bytes. A line that is no number has
// 0, which is no wing, no year and no count of years.
pub fn sheet_on_lines(input: &[u8], out: &mut [u8]) -> lists::ListAnswer
    ensures { (result ≡ sheet_on_lines input.now out.old) × (out.new ≡ sheet_on_lines_buffer input.now out.old) }
{
    let wing = line_code::number_on_line(input).unwrap_or(0);
    let second = line_code::after_line(input);
    let later = &input[second..];
    let first_year = line_code::number_on_line(later).unwrap_or(0);
    let third = line_code::after_line(later);
    let years = line_code::number_on_line(&later[third..]).unwrap_or(0);
    sheet_code::sheet_write(wing, first_year, years, out)
}

// The sheet that the input's three lines ask for, or its refusal on standard error.
pub fn write(out: &impl Print, errors: &impl Print, input: &[u8]) -> io::Result<()> {
    let mut space = [0; sheet_code::SHEET_ROOM];
    let told = sheet_on_lines(input, &mut space);
    if told.refusal != 0 {
        return println!(errors; "{}", Refused(told.refusal));
    }
    let size = told.count as usize;
    if out.write_all(&space[..size]).is_err() {
        return println!(errors; "not written");
    }
    Ok(())
}
