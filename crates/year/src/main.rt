// Reads one decimal year on a line of standard input and prints the year's listing.
#![tactic(auto)]

use std::io;

fn main(rt: HostRuntime) -> io::Result<()> {
    // Five figures and what follows them tell the answer (crate line, theorem `enough`).
    let mut space = [0u8; 6];
    let n = reading::read_lines(&mut rt.stdin(), 1, &mut space)?;
    listing::print(&rt, &space[..n])
}
