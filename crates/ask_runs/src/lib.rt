// The questions of days, years and records that are answered with numbers alone, and runs of them.
//
//     sum new_year 1 10000            the fields of the answers to a run of numbers, each mixed into one number
//     count marks 1 9999 0 4 1 7      in how many years of a run field 0 is 4 and field 1 is 7, and the first of them, or 0
#![tactic(auto)]

use answering::{Answer, FIELDS};
use ask_dates::OfDay;
use ask_years::OfYear;
use asking::{Question, Run};

// A call of one number.
#[derive(Clone, Copy)]
enum Call {
    OfDay(OfDay),
    OfYear(OfYear),
}

impl Call {
    fn named(name: &[u8]) -> Option<Self> {
        match OfDay::named(name) {
            Some(call) => Some(Call::OfDay(call)),
            None => OfYear::named(name).map(Call::OfYear),
        }
    }

    fn answer(self, number: u64) -> Option<Answer> {
        match self {
            Call::OfDay(call) => Some(call.answer(number)),
            Call::OfYear(call) => call.answer(number),
        }
    }
}

// The longest run has a number for each day of the range.
fn run(first: u64, last: u64) -> Option<Run> {
    Run::new(first, last, 4_000_001)
}

// What is not understood adds nothing; a run that ends with it is not understood.
fn sum(call: Call, run: Run) -> Option<Answer> {
    let mut sums = Answer::from([0; FIELDS]);
    let mut fields = None;
    for number in run {
        let answer = call.answer(number);
        fields = answer.map(|answer| answer.fields().len());
        if let Some(answer) = answer {
            sums.mix(&answer);
        }
    }
    Some(sums.first(fields?))
}

// Whether each field that is named has the value beside it.
fn has(answer: &Answer, wanted: &[[u64; 2]]) -> bool {
    wanted
        .iter()
        .all(|[place, value]| answer.field(*place) == Some(*value))
}

fn count(call: Call, run: Run, wanted: &[[u64; 2]]) -> Answer {
    let mut counted: u64 = 0;
    let mut first = None;
    for number in run {
        if has(&call.answer(number).unwrap_or_default(), wanted) {
            counted = counted.wrapping_add(1);
            first = first.or(Some(number));
        }
    }
    Answer::from([counted, first.unwrap_or(0)])
}

fn of_run(question: Question) -> Option<Answer> {
    let asked = question.within();
    let call = Call::named(asked.name)?;
    match (question.name, asked.numbers()?.as_slice()) {
        (b"sum", [first, last]) => sum(call, run(*first, *last)?),
        (b"count", [first, last, wanted @ ..]) => match wanted.as_chunks::<2>() {
            (wanted, []) => Some(count(call, run(*first, *last)?, wanted)),
            _ => None,
        },
        _ => None,
    }
}

fn of_one(call: Call, question: Question) -> Option<Answer> {
    match question.numbers()?.as_slice() {
        [number] => call.answer(*number),
        _ => None,
    }
}

pub fn answer(question: Question) -> Option<Answer> {
    if let b"sum" | b"count" = question.name {
        return of_run(question);
    }
    match Call::named(question.name) {
        Some(call) => of_one(call, question),
        None => ask_dates::answer(question)
            .or_else(|| ask_years::answer(question))
            .or_else(|| ask_records::answer(question)),
    }
}
