// A sheet that is held: written into lent bytes, made longer or cut off, and changed. What cannot be done is answered None,
// and changes nothing.
use answering::sum;
use std::fmt;

// A little more than the largest sheet has.
const ROOM: usize = 34_660;

// What a byte holds before a sheet is written: never 0.
fn pattern(i: usize) -> u8 {
    (255 - i % 251) as u8
}

fn fill(lent: &mut [u8]) {
    for (i, byte) in lent.iter_mut().enumerate() {
        *byte = pattern(i);
    }
}

// How many bytes from a place on hold what they held.
fn kept(lent: &[u8], from: usize) -> usize {
    lent.iter()
        .enumerate()
        .skip(from)
        .filter(|(i, byte)| **byte == pattern(*i))
        .count()
}

// The answer of a writer, one number for the sheet's bytes, and how many behind them hold what they held.
#[derive(Clone, Copy)]
pub struct Written {
    refusal: u64,
    count: u64,
    sum: u64,
    kept: usize,
}

impl fmt::Display for Written {
    fn fmt<W: fmt::Write>(&self, f: &mut fmt::Formatter<W>) -> fmt::Result {
        write!(
            f,
            "{} {}: {}; kept {}",
            self.refusal, self.count, self.sum, self.kept
        )
    }
}

// What stands in the space behind the end of a sheet stays, since a copy into the other sheet reads it: so the sheet is no
// vector of its own length. That the length is within the room is no ghost field, since a struct with one cannot lend its bytes
// to be changed.
#[derive(Drop)]
pub struct Sheet {
    space: [u8; ROOM],
    length: usize,
}

impl Sheet {
    // A sheet of no bytes.
    pub fn new() -> Self {
        Sheet {
            space: [0; ROOM],
            length: 0,
        }
    }

    pub fn bytes(&self) -> &[u8] {
        &self.space[..self.length.min(ROOM)]
    }

    pub fn bytes_mut(&mut self) -> &mut [u8] {
        &mut self.space[..self.length.min(ROOM)]
    }

    // Writes the wing's sheet of so many years into so many bytes. A refused sheet has no bytes.
    pub fn write(&mut self, wing: u64, first_year: u64, years: u64, room: u64) -> Option<Written> {
        let lent = self.space.get_mut(..room as usize)?;
        fill(lent);
        let answer = sheet_code::sheet_write(wing, first_year, years, lent);
        let count = if answer.refusal == 0 { answer.count } else { 0 };
        let length = lent.len().min(count as usize);
        let written = Written {
            refusal: answer.refusal,
            count: answer.count,
            sum: sum(&lent[..length]),
            kept: kept(lent, length),
        };
        self.length = length;
        Some(written)
    }

    // Cuts the sheet off, or makes it longer with noughts.
    pub fn set_length(&mut self, length: u64) -> Option<()> {
        let length = length as usize;
        if ROOM < length {
            return None;
        }
        if self.length < length {
            self.space[self.length..length].fill(0);
        }
        self.length = length;
        Some(())
    }

    // Copies the bytes from one place to before another from the other sheet's space.
    pub fn copy(&mut self, other: &Sheet, from: u64, to: u64) -> Option<()> {
        let bytes = self.bytes_mut().get_mut(..to as usize)?;
        for (byte, copied) in bytes.iter_mut().zip(&other.space).skip(from as usize) {
            *byte = *copied;
        }
        Some(())
    }

    // Puts a number at a place, in so many bytes, at most eight.
    pub fn put(&mut self, at: u64, bytes: u64, number: u64) -> Option<()> {
        let number = number.to_le_bytes();
        let put = number.get(..bytes as usize)?;
        let end = at.checked_add(bytes)?;
        let held = self.bytes_mut().get_mut(at as usize..end as usize)?;
        held.copy_from_slice(put);
        Some(())
    }
}
