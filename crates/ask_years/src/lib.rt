// The questions of molads and years, each a call by its name and its numbers, answered with its fields in the C header's
// order. Besides:
//
//     routes_differ 5762     1 if the two routes to New Year answer otherwise
//     marks 5762             the cause of the year's delay, its kind, and the kind of the year before
//     months_before 5762     a step of `molad`
//     rhodes_steps 5762      Rhodes' n, r, D; i' and f'; i and f; w; the delay and its cause
//     delay 2 17 39 0 1      the delay and its cause, by the molad's weekday, hour and part, and whether the year and the one
//                            before it are leap
#![tactic(auto)]

mod of_year;

use answering::Answer;
use asking::Question;
pub use of_year::OfYear;

fn molad(year: u64, month: u64) -> Answer {
    let m = molad_code::molad(year, month);
    Answer::from([m.refusal, m.day, m.hour, m.part])
}

fn notice(year: u64, month: u64) -> Answer {
    let n = notice_code::notice(year, month);
    Answer::from([n.refusal, n.day, n.weekday, n.hour, n.minute, n.part])
}

// A step takes a range, and what lies outside it is not understood.
fn delay(weekday: u64, hour: u64, part: u64, leap: bool, after_leap: bool) -> Option<Answer> {
    if !(1..=7).contains(&weekday) || 23 < hour || 1079 < part {
        return None;
    }
    let late = delays_code::delay(weekday, 1080 * hour + part, leap, after_leap);
    Some(Answer::from([late.delay, late.cause]))
}

// A call of more numbers than one.
pub fn answer(question: Question) -> Option<Answer> {
    match (question.name, question.numbers()?.as_slice()) {
        (b"molad", &[year, month]) => Some(molad(year, month)),
        (b"notice", &[year, month]) => Some(notice(year, month)),
        (b"delay", &[weekday, hour, part, leap, after_leap]) => {
            delay(weekday, hour, part, leap == 1, after_leap == 1)
        }
        _ => None,
    }
}
