// The questions of the programs' pages. Behind the name stands a program's input, in which a backslash and two figures to
// the base 16 are one byte: a line feed is \0a.
//
//     number_on_line 5762\0a            the refusal and the number of the first line
//     year_page 5762\0a                 what the year program prints
//     notice_page 5762\0a1\0a           what the notice program prints
//     sheet_on_lines 1\0a5787\0a1\0a    the refusal and the count of the sheet program, with 400 bytes lent
#![tactic(auto)]

ghost use Rattle.std.specs.Prelude.{◌<◌, length, IfSome};

use arrayvec::ArrayVec;
use asking::Question;
use std::io;

// The most bytes that an input has.
const ROOM: usize = 64;

// What a figure to the base 16 stands for.
fn figure(byte: u8) -> Option<u8>
    ensures { IfSome result (λ worth. worth < 16) }
{
    match byte {
        b'0'..=b'9' => Some(byte - b'0'),
        b'a'..=b'f' => Some(byte - b'a' + 10),
        _ => None,
    }
}

// The first byte of an input, and the text that is left. None at its end, and for a backslash without its figures.
fn first_byte(text: &[u8]) -> Option<(u8, &[u8])>
    ensures { IfSome result (λ first. length first.1.now < length text.now) }
{
    match text {
        [b'\\', high, low, later @ ..] => Some((16 * figure(*high)? + figure(*low)?, later)),
        [] | [b'\\', ..] => None,
        [byte, later @ ..] => Some((*byte, later)),
    }
}

fn read_input(text: &[u8]) -> Option<ArrayVec<u8, ROOM>> {
    let mut input = ArrayVec::new();
    let mut left = text;
    while !left.is_empty() {
        let (byte, later) = first_byte(left)?;
        input.try_push(byte).ok()?;
        left = later;
    }
    Some(input)
}

fn print_number(out: &impl Print, input: &[u8]) -> io::Result<()> {
    match line_code::number_on_line(input) {
        Some(number) => println!(out; "0 {number}"),
        None => println!(out; "1 0"),
    }
}

fn print_sheet(out: &impl Print, input: &[u8]) -> io::Result<()> {
    let mut space = [0; 400];
    let answer = filing_code::sheet_on_lines(input, &mut space);
    println!(out; "{} {}", answer.refusal, answer.count)
}

// None if the question is no such one.
pub fn answer(out: &impl Print, question: Question) -> Option<io::Result<()>> {
    let input = read_input(question.words)?;
    match question.name {
        b"number_on_line" => Some(print_number(out, input.as_slice())),
        b"year_page" => Some(listing::print(out, input.as_slice())),
        b"notice_page" => Some(wording_code::print(out, input.as_slice())),
        b"sheet_on_lines" => Some(print_sheet(out, input.as_slice())),
        _ => None,
    }
}
