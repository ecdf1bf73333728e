// The stretch that a record tells.
ghost use Rattle.std.specs.Prelude.{◌≡◌, true, false, not, leb, ◌||◌, MatchOption};
ghost use Rattle.days.specs.Range.{InRange};
ghost use Rattle.stretch_code.specs.Found.{told, found_answer};
ghost use Rattle.record.specs.Steps.{lasts, kept, rests, stretch_onward, stretch_backward};

use crate::moves::{Backward, Onward};
use crate::small_date::SmallDate;
use record::DayRecord;
use stretch_code::NextStretch;

// A step, for a day in range: the record's stretch, if it has one that is not over on the day; days left are others. Its
// numbers are looked at before they are added.
fn kept(r: &DayRecord, day: u64) -> Option<NextStretch>
    requires { InRange day }
    ensures { MatchOption result (lasts r.now day ≡ false) (λ s. (lasts r.now day ≡ true) × (told s ≡ kept r.now day)) }
{
    let told = (r.none == 0) & ((r.first <= days::LAST_DAY) & (r.length <= 3));
    if told && day < r.first + r.length {
        return Some(NextStretch {
            first: r.first,
            length: r.length,
            days_left: stretch_code::days_left(r.first, day),
        });
    }
    None
}

impl Onward {
    pub fn stretch(&self) -> Option<NextStretch>
        ensures { found_answer result ≡ stretch_onward self.now.record }
    {
        match kept(&self.record, self.day) {
            Some(s) => Some(s),
            None => stretch_code::stretch_from(self.wing, self.day),
        }
    }
}

impl Backward {
    // Is the day, of this date, a rest day of the wing?
    fn rests(&self, x: SmallDate) -> bool
        ensures { result ≡ rests self.now.record.wing self.now.day x.date }
    {
        days::weekday_of(self.day) == 7 || self.wing.kept(100 * x.date.month + x.date.date)
    }

    // Is a stretch that is not over the one for the day? Not if the day is the last of another.
    fn stands(&self, first: u64, x: SmallDate) -> bool
        ensures { result ≡ leb first self.now.day || not (rests self.now.record.wing self.now.day x.date) }
    {
        first <= self.day || !self.rests(x)
    }

    // The date is that of the day before.
    pub fn stretch(&self, x: SmallDate) -> Option<NextStretch>
        ensures { found_answer result ≡ stretch_backward self.now.record x.date }
    {
        match kept(&self.record, self.day) {
            Some(s) if self.stands(s.first, x) => Some(s),
            _ => stretch_code::stretch_from(self.wing, self.day),
        }
    }
}
