// Sheets cut off and changed: how many are refused with each number.
#![tactic(auto)]

ghost use Rattle.std.specs.Prelude.{◌<◌, ◌≤◌, length};

use std::{fmt, io};

// How many were refused with each number; 0 is that of those that were not. It is no map, since a map takes from the heap.
#[derive(Drop)]
struct Counts {
    of: [u64; 20],
}

impl Counts {
    fn new() -> Self {
        Counts { of: [0; 20] }
    }

    fn count(&mut self, refusal: u64) {
        if let Some(count) = self.of.get_mut(refusal as usize) {
            *count = count.wrapping_add(1);
        }
    }
}

// The numbers that there were.
impl fmt::Display for Counts {
    fn fmt<W: fmt::Write>(&self, f: &mut fmt::Formatter<W>) -> fmt::Result {
        write!(f, "refused")?;
        for (refusal, count) in self.of.iter().enumerate() {
            if 0 < *count {
                write!(f, " {refusal}:{count}")?;
            }
        }
        Ok(())
    }
}

// Each length of the sheet from 0 to its last but one.
pub fn print_cuts(out: &impl Print, wing: u64, sheet: &[u8]) -> io::Result<()> {
    let mut counts = Counts::new();
    for length in 0..sheet.len() {
        match accepted_code::accepted_years(wing, &sheet[..length]) {
            Ok(_) => counts.count(0),
            Err(why) => counts.count(why.number()),
        }
    }
    println!(out; "{counts}")
}

// What a changed sheet is asked for, and how far apart the values are that a byte is made.
#[derive(Clone, Copy)]
struct Changes {
    wing: u64,
    year: u64,
    apart: u8,
    ghost moves: { 1 ≤ apart },
}

impl Changes {
    // Makes a byte other values, and then what it was.
    fn count_at(self, counts: &mut Counts, sheet: &mut [u8], at: usize)
        requires { at < length sheet.old }
    {
        let held = sheet[at];
        for _ in 0..255 / self.apart {
            sheet[at] = sheet[at].wrapping_add(self.apart);
            let rows = loaded_code::rows_place(self.wing, sheet, self.year);
            counts.count(rows.refusal);
        }
        sheet[at] = held;
    }
}

// The wing, the year, how far values are apart, and the bytes from one to before another. None unless they lie on the sheet, and
// 255 is a multiple of how far values are apart.
pub fn print_changes(
    out: &impl Print,
    sheet: &mut [u8],
    [wing, year, apart, from, to]: [u64; 5],
) -> Option<io::Result<()>> {
    let apart = u8::try_from(apart).ok()?;
    if apart == 0 || 255 % apart != 0 || (sheet.len() as u64) < to {
        return None;
    }
    let changes = Changes { wing, year, apart };
    let mut counts = Counts::new();
    for at in from..to {
        changes.count_at(&mut counts, sheet, at as usize);
    }
    Some(println!(out; "{counts}"))
}
