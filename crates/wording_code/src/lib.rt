// The code that prints what the notice program prints.
#![tactic(auto)]

ghost use Rattle.std.specs.Prelude.{◌≡◌};
ghost use Rattle.wording.specs.Answers.{notice_on_lines, shown_date};

mod printed;

use civil_code::Gregorian;
use printed::Notice;
use show::{Date, Refused};
use std::io;

// Refusal 1 for a first line that holds no year; 2 for a second that holds no month of it. A line that is no number has 0,
// which is neither.
pub fn notice_on_lines(input: &[u8]) -> notice::NoticeAnswer
    ensures { result ≡ notice_on_lines input.now }
{
    let year = line_code::number_on_line(input).unwrap_or(0);
    let second = line_code::after_line(input);
    let month = line_code::number_on_line(&input[second..]).unwrap_or(0);
    notice_code::notice(year, month)
}

// The Gregorian date of a day that a notice may show: a day of the range, or the one before it. Refusal 4 else.
pub fn shown_date(day: u64) -> civil::CivilDate
    ensures { result ≡ shown_date day }
{
    if day == days::FIRST_DAY - 1 {
        return civil::CivilDate {
            refusal: 0,
            year: -3760,
            month: 9,
            day: 6,
        };
    }
    civil_code::to_date::<Gregorian>(day)
}

// The notice that the input's two lines ask for, or its refusal. Each that is answered has a date (`every_notice_dated`).
pub fn print(out: &impl Print, input: &[u8]) -> io::Result<()> {
    let told = notice_on_lines(input);
    if told.refusal != 0 {
        return println!(out; "{}", Refused(told.refusal));
    }
    let shown = Date(shown_date(told.day));
    println!(out; "{}", Notice { told, shown })
}
