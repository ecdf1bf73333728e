// The numbers of an answer, in the order of its fields, and one number for many.
#![tactic(auto)]

ghost use Rattle.std.specs.Prelude.{◌↔◌, ◌<◌, IsSome};

use show::mixed;
use std::{fmt, io};

// The most fields that an answer has.
pub const FIELDS: usize = 14;

// A number that may be below 0, as it stands in an answer: 2^64 more.
pub fn bits(number: i64) -> u64 {
    let magnitude = show::magnitude(number);
    if number < 0 {
        magnitude.wrapping_neg()
    } else {
        magnitude
    }
}

// Numbers with their count beside them: an `ArrayVec` could not be copied, and an answer can.
#[derive(Clone, Copy, Default)]
pub struct Answer {
    numbers: [u64; FIELDS],
    count: usize,
}

impl Answer {
    pub fn fields(&self) -> &[u64] {
        &self.numbers[..self.count.min(FIELDS)]
    }

    // A field by its place. One that the answer has not is 0, and there is none beyond the most.
    pub fn field(&self, place: u64) -> Option<u64>
        ensures { IsSome result ↔ (place < FIELDS) }
    {
        if FIELDS as u64 <= place {
            return None;
        }
        Some(self.fields().get(place as usize).copied().unwrap_or(0))
    }

    // Field by field, mixes in an answer's number.
    pub fn mix(&mut self, next: &Answer) {
        for (sum, number) in self.numbers.iter_mut().zip(next.fields()) {
            *sum = mixed(*sum, *number);
        }
    }

    // Its first fields, so many.
    pub fn first(self, count: usize) -> Answer {
        let numbers = self.numbers;
        let count = self.count.min(count);
        Answer { numbers, count }
    }
}

impl<const N: usize> From<[u64; N]> for Answer {
    // Those that it has no room for are left out.
    fn from(numbers: [u64; N]) -> Self {
        let mut answer = Answer {
            numbers: [0; FIELDS],
            count: N.min(FIELDS),
        };
        for (field, number) in answer.numbers.iter_mut().zip(&numbers) {
            *field = *number;
        }
        answer
    }
}

// One blank apart.
impl fmt::Display for Answer {
    fn fmt<W: fmt::Write>(&self, f: &mut fmt::Formatter<W>) -> fmt::Result {
        for (i, field) in self.fields().iter().enumerate() {
            if 0 < i {
                write!(f, " ")?;
            }
            write!(f, "{}", field.cast_signed())?;
        }
        Ok(())
    }
}

// The answer on a line.
pub fn print(out: &impl Print, answer: Option<Answer>) -> io::Result<()> {
    match answer {
        Some(answer) => println!(out; "{answer}"),
        None => println!(out; "not understood"),
    }
}

// One number for bytes.
pub fn sum(bytes: &[u8]) -> u64 {
    bytes
        .iter()
        .fold(0, |sum, byte| mixed(sum, u64::from(*byte)))
}
