// The questions of sheets. Two are held: the sheet, and the other one.
//
//     sheet_write 1 5787 1 372     writes the sheet into 372 bytes: the refusal and the count, one number for the sheet's
//                                  bytes, and how many bytes beyond it hold what they held; a refused one leaves no sheet
//     length 371                   cuts the sheet off, or makes it longer with noughts
//     put 22 2 384                 puts a number at byte 22, in two bytes
//     copy 24 354                  copies the bytes from 24 to before 354 from the other sheet
//     exchange                     the sheet becomes the other one, and the other the sheet
//     fields                       header, index and rows: the bytes to the base 16, and the numbers
//     sheet_rows 1 5787            the refusal, where the year's rows stand and their length; then of the part that is
//                                  shown, the refusal, the length and one number for its bytes
//     sheets_rows 2 5787           the same of the sheet that is named: the sheet for 1, the other one for 2
//     walk 1 5                     what refuses the walk, and what five calls hand out
//     sum_walk 1 58                one number for what so many calls hand out
//     sum_rows 1 5700 5799         one number for the rows of these years
//     cuts 1                       how many lengths, from 0 to the sheet's last but one, are refused with each number
//     changes 1 5787 17 0 24       each byte from 0 to before 24 made other values, 17 apart, and asked for the year: how
//                                  many are refused with each number
//
// What changes the sheet is answered with its length.
#![tactic(auto)]

use ask_held::Held;
use asking::Question;
use std::io;

// None if the question is none of those that leave the sheets as they are.
fn read(
    out: &impl Print,
    question: Question,
    sheet: &[u8],
    other: &[u8],
) -> Option<io::Result<()>> {
    match (question.name, question.numbers()?.as_slice()) {
        (b"sheet_rows", &[wing, year]) => Some(ask_rows::print_rows(out, wing, sheet, year)),
        (b"sheets_rows", &[named, year]) => {
            Some(ask_rows::print_rows_of_two(out, named, sheet, other, year))
        }
        (b"walk", &[wing, calls]) => ask_rows::print_walk(out, wing, sheet, calls),
        (b"sum_walk", &[wing, calls]) => ask_rows::print_walk_sum(out, wing, sheet, calls),
        (b"sum_rows", &[wing, first, last]) => {
            ask_rows::print_rows_sum(out, wing, sheet, first, last)
        }
        (b"fields", &[]) => Some(ask_fields::print(out, sheet)),
        (b"cuts", &[wing]) => Some(ask_changes::print_cuts(out, wing, sheet)),
        _ => None,
    }
}

// None if the question is none of those that change the sheets, or cannot be met: then they are as they were.
fn change(out: &impl Print, question: Question, held: &mut Held) -> Option<io::Result<()>> {
    match (question.name, question.numbers()?.as_slice()) {
        (b"sheet_write", &[wing, first_year, years, room]) => {
            let written = held.sheet.write(wing, first_year, years, room)?;
            return Some(println!(out; "{written}"));
        }
        (b"changes", &[wing, year, apart, from, to]) => {
            let sheet = held.sheet.bytes_mut();
            return ask_changes::print_changes(out, sheet, [wing, year, apart, from, to]);
        }
        (b"length", &[length]) => held.sheet.set_length(length)?,
        (b"put", &[at, bytes, number]) => held.sheet.put(at, bytes, number)?,
        (b"copy", &[from, to]) => held.sheet.copy(held.other, from, to)?,
        (b"exchange", &[]) => held.exchange(),
        _ => return None,
    }
    Some(println!(out; "{}", held.sheet.bytes().len()))
}

// None if the question is no such one, or cannot be met.
pub fn answer(out: &impl Print, question: Question, held: &mut Held) -> Option<io::Result<()>> {
    match change(out, question, held) {
        None => read(out, question, held.sheet.bytes(), held.other.bytes()),
        answered => answered,
    }
}
