// The calls of a day.
use answering::{Answer, bits};
use civil_code::{Gregorian, Julian};

#[derive(Clone, Copy)]
pub enum OfDay {
    Weekday,
    DayToJulian,
    DayToGregorian,
    ShownDate,
    DayToHebrew,
    YearOfDay,
    ComesBack,
    // The wing's stretch.
    Stretch(u64),
}

impl OfDay {
    pub fn named(name: &[u8]) -> Option<Self> {
        match name {
            b"weekday" => Some(OfDay::Weekday),
            b"day_to_julian" => Some(OfDay::DayToJulian),
            b"day_to_gregorian" => Some(OfDay::DayToGregorian),
            b"shown_date" => Some(OfDay::ShownDate),
            b"day_to_hebrew" => Some(OfDay::DayToHebrew),
            b"year_of_day" => Some(OfDay::YearOfDay),
            b"comes_back" => Some(OfDay::ComesBack),
            b"stretch_1" => Some(OfDay::Stretch(1)),
            b"stretch_2" => Some(OfDay::Stretch(2)),
            _ => None,
        }
    }

    pub fn answer(self, day: u64) -> Answer {
        match self {
            OfDay::Weekday => weekday(day),
            OfDay::DayToJulian => civil_date(civil_code::to_date::<Julian>(day)),
            OfDay::DayToGregorian => civil_date(civil_code::to_date::<Gregorian>(day)),
            OfDay::ShownDate => civil_date(wording_code::shown_date(day)),
            OfDay::DayToHebrew => hebrew_date(day),
            OfDay::YearOfDay => year_of_day(day),
            OfDay::ComesBack => Answer::from([u64::from(comes_back(day))]),
            OfDay::Stretch(wing) => crate::stretch(wing, day),
        }
    }
}

fn weekday(day: u64) -> Answer {
    let w = days::weekday(day);
    Answer::from([w.refusal, w.weekday])
}

fn civil_date(date: civil::CivilDate) -> Answer {
    Answer::from([date.refusal, bits(date.year), date.month, date.day])
}

fn hebrew_date(day: u64) -> Answer {
    let d = hebrew_code::day_to_hebrew(day);
    Answer::from([
        d.refusal,
        d.year,
        d.month,
        d.day,
        d.new_year,
        d.length,
        d.day_of_year,
    ])
}

fn year_of_day(day: u64) -> Answer {
    let y = newyear_code::year_of_day(day);
    Answer::from([y.refusal, y.year])
}

fn comes_back(day: u64) -> bool {
    let date = hebrew_code::day_to_hebrew(day);
    let back = hebrew_code::hebrew_to_day(date.year, date.month, date.day);
    date.refusal == 0 && back.refusal == 0 && back.day == day
}
