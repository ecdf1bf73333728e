// The questions of a year's lists: a wing's, and the fasts.
//
//     rest_days 1 5762 8       the refusal and the count, the list, and how many of the 8 entries lent hold what they held
//     stretches 1 5762 140
//     fasts 5784 6
//     sum_lists 1 1 9999       both lists of the wing in each of these years, mixed into one number
//     sum_fasts 1 9999         the fasts of each of these years, mixed into one number
#![tactic(auto)]

ghost use Rattle.std.specs.Prelude.{◌≤◌, length};

use asking::{Question, Run};
use lists::ListAnswer;
use show::mixed;
use std::io;

// The most entries that are lent.
const ROOM: usize = 140;

// What an entry holds before the call.
fn pattern(i: usize) -> u64 {
    7_777_777u64.wrapping_add(i as u64)
}

// The wing's rest days or its stretches, or the fasts.
#[derive(Clone, Copy)]
enum List {
    RestDays(u64),
    Stretches(u64),
    Fasts,
}

impl List {
    fn write(self, year: u64, out: &mut [u64]) -> ListAnswer {
        match self {
            List::RestDays(wing) => rest_code::rest_days(wing, year, out),
            List::Stretches(wing) => stretches_code::stretches(wing, year, out),
            List::Fasts => fasts_code::fasts(year, out),
        }
    }

    // How many entries are written, of which a stretch takes two.
    fn entries(self, answer: &ListAnswer) -> u64 {
        match self {
            _ if answer.refusal != 0 => 0,
            List::Stretches(_) => answer.count.saturating_mul(2),
            _ => answer.count,
        }
    }
}

// How many entries from a place on hold what they held. An entry counts once.
fn kept(lent: &[u64], from: usize) -> usize
    ensures { result ≤ length lent.now }
{
    lent.iter()
        .enumerate()
        .skip(from)
        .filter(|(i, entry)| **entry == pattern(*i))
        .count()
}

// The entries that are written, and how many of the others hold what they held.
fn print_list(out: &impl Print, list: List, year: u64, lent: &mut [u64]) -> io::Result<()> {
    for (i, entry) in lent.iter_mut().enumerate() {
        *entry = pattern(i);
    }
    let answer = list.write(year, lent);
    let written = list.entries(&answer) as usize;
    print!(out; "{} {}:", answer.refusal, answer.count)?;
    for entry in lent.iter().take(written) {
        print!(out; " {entry}")?;
    }
    println!(out; "; kept {}", kept(lent, written))
}

// None for more entries than can be lent.
fn listed(out: &impl Print, list: List, year: u64, room: u64) -> Option<io::Result<()>> {
    let mut space = [0; ROOM];
    let lent = space.get_mut(..room as usize)?;
    Some(print_list(out, list, year, lent))
}

// Mixes in an answer, and all entries of a buffer of noughts that is lent to it.
fn with_list(sum: u64, list: List, year: u64) -> u64 {
    let mut out = [0; ROOM];
    let answer = list.write(year, &mut out);
    let sum = mixed(mixed(sum, answer.refusal), answer.count);
    out.iter().fold(sum, |sum, entry| mixed(sum, *entry))
}

fn sum(lists: &[List], years: Run) -> u64 {
    let mut sum = 0;
    for year in years {
        for list in lists {
            sum = with_list(sum, *list, year);
        }
    }
    sum
}

// None for a run of too many years.
fn summed(out: &impl Print, lists: &[List], first: u64, last: u64) -> Option<io::Result<()>> {
    let years = Run::new(first, last, 10_001)?;
    Some(println!(out; "{}", sum(lists, years)))
}

// None if the question is no such one.
pub fn answer(out: &impl Print, question: Question) -> Option<io::Result<()>> {
    match (question.name, question.numbers()?.as_slice()) {
        (b"rest_days", &[wing, year, room]) => listed(out, List::RestDays(wing), year, room),
        (b"stretches", &[wing, year, room]) => listed(out, List::Stretches(wing), year, room),
        (b"fasts", &[year, room]) => listed(out, List::Fasts, year, room),
        (b"sum_lists", &[wing, first, last]) => summed(
            out,
            &[List::RestDays(wing), List::Stretches(wing)],
            first,
            last,
        ),
        (b"sum_fasts", &[first, last]) => summed(out, &[List::Fasts], first, last),
        _ => None,
    }
}
