// The questions of days, dates, stretches and charging, each a call by its name and its numbers, answered with its fields in the C
// header's order. Besides:
//
//     shown_date 347997      the date that the notice program shows
//     comes_back 347998      1 if the day comes back from its Hebrew date
//     stretch_1 347998       the same as stretch 1 347998, and stretch_2 for the guest wing
#![tactic(auto)]

mod of_day;

use answering::{Answer, bits};
use asking::Question;
use civil_code::{Calendar, Gregorian, Julian};
pub use of_day::OfDay;

pub(crate) fn stretch(wing: u64, day: u64) -> Answer {
    let s = stretch_code::stretch(wing, day);
    Answer::from([s.refusal, s.first, s.length, bits(s.days_left)])
}

fn month_length(year: u64, month: u64) -> Answer {
    let m = hebrew_code::month_length(year, month);
    Answer::from([m.refusal, m.days])
}

fn hebrew_day(year: u64, month: u64, day: u64) -> Answer {
    let d = hebrew_code::hebrew_to_day(year, month, day);
    Answer::from([d.refusal, d.day])
}

// The day of a date: the year, which may be below 0, the month and the day.
fn civil_day<C: Calendar>(question: Question) -> Option<Answer> {
    let later = question.within();
    let year = asking::signed(later.name)?;
    match later.numbers()?.as_slice() {
        &[month, day] => {
            let d = civil_code::to_day::<C>(year, month, day);
            Some(Answer::from([d.refusal, d.day]))
        }
        _ => None,
    }
}

fn of_numbers(name: &[u8], numbers: &[u64]) -> Option<Answer> {
    match (name, numbers) {
        (b"stretch", &[wing, day]) => Some(stretch(wing, day)),
        (b"month_length", &[year, month]) => Some(month_length(year, month)),
        (b"hebrew_to_day", &[year, month, day]) => Some(hebrew_day(year, month, day)),
        (b"charge_start", &[wing, day, draw, capacity, rate, charge]) => {
            let c = charger_code::charge_start(wing, day, draw, capacity, rate, charge);
            Some(Answer::from([c.refusal, c.start, c.hours, c.first, c.length]))
        }
        _ => None,
    }
}

// A call of more numbers than one.
pub fn answer(question: Question) -> Option<Answer> {
    match question.name {
        b"julian_to_day" => civil_day::<Julian>(question),
        b"gregorian_to_day" => civil_day::<Gregorian>(question),
        name => of_numbers(name, question.numbers()?.as_slice()),
    }
}
