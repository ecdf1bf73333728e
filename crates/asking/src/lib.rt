// A question is a line of words, one blank apart: a name, then mostly numbers.
#![tactic(auto)]

mod numbers;
mod runs;

use arrayvec::ArrayVec;
use numbers::number;
pub use numbers::signed;
pub use runs::Run;

// How many numbers a question may have.
pub const MOST: usize = 8;

const BLANK: u8 = b' ';

#[derive(Clone, Copy)]
pub struct Question<'a> {
    pub name: &'a [u8],
    // What stands behind the name and its blank.
    pub words: &'a [u8],
}

impl<'a> Question<'a> {
    pub fn new(line: &'a [u8]) -> Self {
        match line.iter().position(|byte| *byte == BLANK) {
            Some(end) => Question {
                name: &line[..end],
                words: &line[end + 1..],
            },
            None => Question {
                name: line,
                words: b"",
            },
        }
    }

    // The question that begins behind the name.
    pub fn within(self) -> Self {
        Question::new(self.words)
    }

    // The words, if they are numbers and no more than there may be.
    pub fn numbers(self) -> Option<ArrayVec<u64, MOST>> {
        let mut numbers = ArrayVec::new();
        for word in self.words.split_inclusive(|byte| *byte == BLANK) {
            let figures = word.strip_suffix(b" ").unwrap_or(word);
            numbers.try_push(number(figures)?).ok()?;
        }
        Some(numbers)
    }
}
