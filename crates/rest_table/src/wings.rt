// The wings of the hall. C and the programs name a wing by its number.
ghost use Rattle.std.specs.Prelude.{◌≡◌, ◌≤◌};
ghost use Rattle.laws.specs.Runs.{elem};
ghost use Rattle.rest.specs.Wings.{table_of};
ghost use Rattle.rest.specs.Steps.{rest_on};
ghost use Rattle.rest_table.specs.Wing.{number_of, Names};

use crate::{GUEST_TABLE, REST_TABLE};
use hebrew::YearDate;
use refusals::Refusal;

#[derive(Clone, Copy, PartialEq, Eq)]
pub enum Wing {
    // The hall, wing 1.
    Hall = 1,
    // The guest wing, wing 2, which keeps second days too.
    Guest = 2,
}

impl TryFrom<u64> for Wing {
    type Error = Refusal;

    ghost try_from_gives = { Names };

    fn try_from(number: u64) -> Result<Self, Refusal> {
        match number {
            1 => Ok(Wing::Hall),
            2 => Ok(Wing::Guest),
            _ => Err(Refusal::BadWing),
        }
    }
}

impl Wing {
    pub fn number(self) -> u64
        ensures { result ≡ number_of self }
    {
        self as u64
    }

    // Its rest days, as rows of 100 × month code + day.
    pub fn table(self) -> &'static [u64]
        ensures { result.now ≡ table_of (number_of self) }
    {
        match self {
            Wing::Hall => &REST_TABLE,
            Wing::Guest => &GUEST_TABLE,
        }
    }

    // Is there such a row in its table? Wing 1's is searched first for either wing: what wing 1 keeps the guest wing keeps
    // too.
    pub fn kept(self, row: u64) -> bool
        ensures { result ≡ elem row (table_of (number_of self)) }
    {
        if REST_TABLE.contains(&row) {
            return true;
        }
        match self {
            Wing::Hall => false,
            Wing::Guest => GUEST_TABLE.contains(&row),
        }
    }

    // A step, for dates of a year whose New Year falls on this weekday, which may be counted on past 7: is it a rest day?
    pub fn rest_on(self, weekday: u64, date: YearDate) -> bool
        requires { (weekday ≤ 400) × ((date.after ≤ 400) × ((date.month ≤ 13) × (date.day ≤ 400))) }
        ensures { result ≡ rest_on (table_of (number_of self)) weekday date }
    {
        if (weekday + date.after) % 7 == 0 {
            return true;
        }
        self.kept(100 * date.month + date.day)
    }

    // The wing that answers for a number: the guest wing for every other than 1, as in the definition of a wing's table.
    pub fn of(number: u64) -> Wing
        ensures { table_of (number_of result) ≡ table_of number }
    {
        if number == 1 { Wing::Hall } else { Wing::Guest }
    }
}
