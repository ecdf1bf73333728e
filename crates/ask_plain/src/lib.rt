// A line that asks nothing of sheets. One that begins with # is written out as it is; one that is no question, or has too few,
// too many or bad words, is answered `not understood`.
#![tactic(auto)]

use asking::Question;
use line_code::LINE_END;
use std::io;
use std::io::Read;

fn print_heading(out: &impl Print, line: &[u8]) -> io::Result<()> {
    out.write_all(line)?;
    println!(out; "")
}

pub fn answer(out: &impl Print, line: &[u8]) -> io::Result<()> {
    if line.starts_with(b"#") {
        return print_heading(out, line);
    }
    let question = Question::new(line);
    ask_lists::answer(out, question)
        .or_else(|| ask_pages::answer(out, question))
        .unwrap_or_else(|| answering::print(out, ask_runs::answer(question)))
}

// What is left of a line that is too long to be understood. A proved loop has to end, and nothing says that a line does: so
// it counts, up to a number of turns that no run uses up.
pub fn pass_line(input: &mut impl Read, out: &impl Print) -> io::Result<()> {
    for _ in 0..u64::MAX {
        let mut byte = [0];
        let n = reading::read_lines(input, 1, &mut byte)?;
        if n == 0 || byte[0] == LINE_END {
            return answering::print(out, None);
        }
    }
    Ok(())
}
