// Reads questions, one to a line of standard input, and answers each. They are told in ask_dates, ask_years, ask_records,
// ask_runs, ask_lists, ask_pages and ask_sheets.
#![tactic(auto)]

use ask_held::{Held, Sheet};
use asking::Question;
use std::io;
use std::io::Read;

// A line of so many bytes or more is not understood.
const LONGEST: usize = 1000;

// The first bytes of a line, with its line feed if it has come.
fn turn(input: &mut impl Read, out: &impl Print, bytes: &[u8], held: &mut Held) -> io::Result<()> {
    let line = bytes.strip_suffix(b"\n").unwrap_or(bytes);
    if line.len() == LONGEST {
        return ask_plain::pass_line(input, out);
    }
    match ask_sheets::answer(out, Question::new(line), held) {
        Some(answered) => answered,
        None => ask_plain::answer(out, line),
    }
}

// Nothing says that the input ends: so the turns are counted, up to a number that no run uses up.
fn main(rt: HostRuntime) -> io::Result<()> {
    let mut input = rt.stdin();
    let mut one = Sheet::new();
    let mut two = Sheet::new();
    let mut held = Held {
        sheet: &mut one,
        other: &mut two,
    };
    for _ in 0..u64::MAX {
        let mut space = [0; LONGEST];
        let n = reading::read_lines(&mut input, 1, &mut space)?;
        if n == 0 {
            return Ok(());
        }
        turn(&mut input, &rt, &space[..n], &mut held)?;
    }
    Ok(())
}
