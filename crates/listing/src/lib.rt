// What the year program prints for one input.
//
// The first line has the year, the weekday of its New Year, its length and months, the day, hour and part of Tishri's
// molad, and the delay of New Year with its cause. A line for each rest day of wing 1 follows, rising: month code, day,
// weekday, day number and Gregorian date. What is refused prints only its number.
#![tactic(auto)]

use civil_code::Gregorian;
use newyear::YearAnswer;
use show::{Date, Refused};
use std::io;

fn head(out: &impl Print, year: u64, facts: &YearAnswer) -> io::Result<()> {
    let tishri = molad_code::molad(year, 1);
    println!(out;
        "{year} {} {} {} {} {} {} {} {}",
        facts.weekday,
        facts.length,
        facts.months,
        tishri.day,
        tishri.hour,
        tishri.part,
        facts.delay,
        facts.cause
    )
}

fn row(out: &impl Print, day: u64) -> io::Result<()> {
    let found = hebrew_code::day_to_hebrew(day);
    let weekday = days::weekday(day).weekday;
    let daylight = Date(civil_code::to_date::<Gregorian>(day));
    println!(out; "{} {} {weekday} {day} {daylight}", found.month, found.day)
}

// The listing of the year on the input's first line, or its refusal. A line that is no number has 0, which is no year.
pub fn print(out: &impl Print, input: &[u8]) -> io::Result<()> {
    let year = line_code::number_on_line(input).unwrap_or(0);
    let facts = newyear_code::year(year);
    if facts.refusal != 0 {
        return println!(out; "{}", Refused(facts.refusal));
    }
    head(out, year, &facts)?;
    let mut days = [0; rest_table::REST_ROWS];
    rest_code::rest_days(1, year, &mut days);
    for day in &days {
        row(out, *day)?;
    }
    Ok(())
}
