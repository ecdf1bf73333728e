// The questions of the panel's day record. Its numbers are answered in the C header's order, after the refusal of the last
// call.
//
//     record_set 1 2456928                 a new record, set
//     record_set 1 2456928 3 2456928       a new record, set, and set once more
//     record_next 1 2456928                a new record, set, and moved on
//     record_back 1 2456928                a new record, set, and moved back
//     record_walk 1 2456926 354            a new record, set, moved on so many times and then back as often: the refusal of the
//                                          setting, and how many moves on and back left it as set afresh to the day due
#![tactic(auto)]

use answering::{Answer, bits};
use asking::Question;
use record::{DayRecord, Moved};

fn set(wing: u64, day: u64) -> Moved {
    record_code::set(DayRecord::default(), wing, day)
}

fn told(moved: Moved) -> Answer {
    let r = moved.after;
    Answer::from([
        moved.refusal,
        r.day,
        r.wing,
        r.year,
        r.month,
        r.date,
        r.first,
        r.length,
        bits(r.days_left),
        r.none,
        r.remaining,
        r.fast_month,
        r.fast_left,
        r.no_fast,
    ])
}

#[derive(Clone, Copy)]
enum Way {
    On,
    Back,
}

impl Way {
    fn moved(self, record: DayRecord) -> DayRecord {
        match self {
            Way::On => record_code::next(record).after,
            Way::Back => record_code::back(record).after,
        }
    }

    // The day that is so many days from another.
    fn day_at(self, day: u64, days: u64) -> u64 {
        match self {
            Way::On => day.wrapping_add(days),
            Way::Back => day.wrapping_sub(days),
        }
    }

    // Moves the record so many days, and answers how many of the moves left it as set afresh to the day due.
    fn walk(self, record: &mut DayRecord, days: u64) -> u64 {
        let from = *record;
        let mut agreed: u64 = 0;
        for passed in 1..=days {
            *record = self.moved(*record);
            let due = self.day_at(from.day, passed);
            if *record == set(from.wing, due).after {
                agreed += 1;
            }
        }
        agreed
    }
}

// No walk is longer than the range.
fn walk(wing: u64, day: u64, days: u64) -> Option<Answer> {
    if 4_000_000 < days {
        return None;
    }
    let begun = set(wing, day);
    if begun.refusal != 0 {
        return Some(Answer::from([begun.refusal, 0, 0]));
    }
    let mut record = begun.after;
    let on = Way::On.walk(&mut record, days);
    let back = Way::Back.walk(&mut record, days);
    Some(Answer::from([0, on, back]))
}

pub fn answer(question: Question) -> Option<Answer> {
    match (question.name, question.numbers()?.as_slice()) {
        (b"record_set", &[wing, day]) => Some(told(set(wing, day))),
        (b"record_set", &[wing, day, next_wing, next_day]) => {
            let record = set(wing, day).after;
            Some(told(record_code::set(record, next_wing, next_day)))
        }
        (b"record_next", &[wing, day]) => Some(told(record_code::next(set(wing, day).after))),
        (b"record_back", &[wing, day]) => Some(told(record_code::back(set(wing, day).after))),
        (b"record_walk", &[wing, day, days]) => walk(wing, day, days),
        _ => None,
    }
}
