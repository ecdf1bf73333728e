// Reads a wing, a first year and how many years, one to a line of standard input, and writes their sheet.
#![tactic(auto)]

use std::io;

fn main(rt: HostRuntime) -> io::Result<()> {
    // Nineteen bytes tell what is written and, unless the second line has more than six, the refusal (crate filing, theorem
    // `enough`).
    let mut space = [0u8; 19];
    let n = reading::read_lines(&mut rt.stdin(), 3, &mut space)?;
    filing_code::write(&rt, &rt.stderr(), &space[..n])
}
