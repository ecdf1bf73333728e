// Reads a year and a month's code, one to a line of standard input, and prints the notice of the month's molad.
#![tactic(auto)]

use std::io;

fn main(rt: HostRuntime) -> io::Result<()> {
    // Twice five figures, each with what follows them, tell the answer (crate wording, theorem `enough`).
    let mut space = [0u8; 12];
    let n = reading::read_lines(&mut rt.stdin(), 2, &mut space)?;
    wording_code::print(&rt, &space[..n])
}
