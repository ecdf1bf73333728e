// Runs of rest days on the days of one year.
ghost use Rattle.std.specs.Prelude.{◌≡◌, Bool, false, ℕ, ◌+◌, ◌-◌, ◌≤◌, ◌<◌};
ghost use Rattle.laws.specs.Search.{seek, seek_not, run_start};
ghost use Rattle.hebrew.specs.Steps.{year_date};
ghost use Rattle.rest.specs.Wings.{table_of};
ghost use Rattle.rest.specs.Steps.{rest_on, rest_at};
ghost use Rattle.rest_table.specs.Wing.{number_of};
ghost use Rattle.stretch.specs.Steps.{next_at, first_for, past_for};
ghost use Rattle.stretch_code.specs.Days.{rests, MayAsk, Tells};

use crate::year_days::YearDays;
use hebrew::YearDate;

// Neighbours that are rest days.
#[derive(Drop)]
pub struct Run {
    pub first: u64,
    // The day after the last.
    pub past: u64,
}

impl YearDays {
    // For dates of a year: is it a rest day?
    fn rests(self, date: YearDate) -> bool
        requires { (date.after ≤ 400) × ((date.month ≤ 13) × (date.day ≤ 400)) }
        ensures { result ≡ rest_on (table_of (number_of self.wing)) self.weekday date }
    {
        self.wing.rest_on(self.weekday, date)
    }

    // The first date from this one on that is wanted; the day after the year where there is none.
    fn first_from<F: Fn(YearDate) -> bool>(self, from: YearDate, wanted: F) -> YearDate
        requires dates { (from.after ≤ self.length) × (from ≡ year_date self.length from.after) }
        requires asked { MayAsk self.length (F.pre wanted) }
        ensures { (p : ℕ → Bool) → Tells self.length (F.post wanted) p → result ≡ year_date self.length (seek p (self.length - from.after) from.after) }
    {
        let mut date = from;
        for _ in from.after..self.length {
            if wanted(date) {
                return date;
            }
            date = hebrew_months::next_date(self.length, date);
        }
        date
    }

    // Where the run of rest days begins that ends with the day before day x.
    fn run_start(self, x: u64) -> u64
        requires { x ≤ self.length }
        ensures { (result ≡ run_start (rests self) x) × (result ≤ x) }
    {
        for day in (0..x).rev() {
            if !self.rests(hebrew_months::date_after(self.length, day)) {
                return day + 1;
            }
        }
        0
    }

    // The first day of the run of rest day n, which is the first from day x on: if it is not x, the day before it is none.
    fn first_for(self, x: u64, n: u64) -> u64
        requires { (n ≤ self.length) × (x < n → rests self (n - 1) ≡ false) }
        ensures { (result ≡ run_start (rests self) n) × (result ≤ n) }
    {
        if x < n { n } else { self.run_start(n) }
    }

    // The first rest day from day x on; the day after the year where there is none.
    fn next_rest(self, x: u64) -> YearDate
        requires { x < self.length }
        ensures { result ≡ year_date self.length (next_at (rests self) self.length x) }
    {
        self.first_from(
            hebrew_months::date_after(self.length, x),
            |date| self.rests(date),
        )
    }

    // The first day from this date on that is no rest day.
    fn past(self, from: YearDate) -> u64
        requires { (from.after ≤ self.length) × (from ≡ year_date self.length from.after) }
        ensures { (result ≡ seek_not (rests self) (self.length - from.after) from.after) × ((from.after ≤ result) × (result ≤ self.length)) }
    {
        self.first_from(from, |date| !self.rests(date)).after
    }

    // The run for day x: that of the next rest day in the year or, where there is none, the run that the next New Year
    // begins.
    pub fn run_for(self, x: u64) -> Run
        requires { (self.weekday ≤ 7) × (x < self.length) }
        ensures first { result.first ≡ first_for (rests self) self.length x }
        ensures past { result.past ≡ past_for (rests self) (rest_at (table_of (number_of self.wing)) (self.weekday + self.length) self.length) self.length x }
        ensures order { (result.first ≤ result.past) × (result.past ≤ 770) }
    {
        let next = self.next_rest(x);
        if next.after < self.length {
            Run {
                first: self.first_for(x, next.after),
                past: self.past(hebrew_months::next_date(self.length, next)),
            }
        } else {
            let next_year = YearDays {
                wing: self.wing,
                weekday: self.weekday + self.length,
                length: self.length,
            };
            Run {
                first: self.length,
                past: self.length + next_year.past(hebrew_months::date_after(self.length, 0)),
            }
        }
    }
}
