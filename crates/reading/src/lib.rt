// How the programs read: the first lines of standard input. A read that fails is told the caller.
#![tactic(auto)]

ghost use Rattle.std.specs.Prelude.{◌≡◌, ◌≤◌, length, take, IfOk, OnErr};

use line_code::LINE_END;
use std::io;
use std::io::Read;

// Puts the first `lines` lines, each with its line feed, at the start of `space`, or as much of them as there is room for,
// and answers how many bytes came. It reads byte by byte, so that lines typed by hand are answered when the last one ends.
// The count stands beside the buffer, as that of std's `read` does: a part lent back would leave no word of the buffer (`err`).
pub fn read_lines(input: &mut impl Read, lines: u64, space: &mut [u8]) -> io::Result<usize>
    ensures ok { IfOk result (λ n. (n ≤ length space.new) × (n ≡ length (take n space.new))) }
    ensures err { OnErr result (length space.new ≡ length space.old) }
{
    let mut wanted = lines;
    for n in 0..space.len() {
        if wanted == 0 || input.read(&mut space[n..=n])? == 0 {
            return Ok(n);
        }
        if space[n] == LINE_END {
            wanted -= 1;
        }
    }
    Ok(space.len())
}
