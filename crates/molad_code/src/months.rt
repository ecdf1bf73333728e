// The months before a year, and those of a year.
ghost use Rattle.std.specs.Prelude.{◌≡◌, ◌≤◌};
ghost use Rattle.molad.specs.Molad.{no_month};
ghost use Rattle.molad_code.specs.Steps.{IsMonths};

// The Hebrew years covered are 1 to 9999; New Year is answered for one more.
pub const LAST_YEAR: u64 = 9_999;

pub const LAST_NEW_YEAR: u64 = 10_000;

#[derive(Drop)]
pub struct Months {
    // The months before Tishri of the year.
    pub months: u64,
    // Is the year leap?
    pub leap: bool,
    // Was the year before it leap? Year 0 counts as leap.
    pub after_leap: bool,
}

// A nineteenth of 2 to the 25th, rounded up.
const NINETEENTH: u64 = 1_766_023;

const WHOLE: u64 = 33_554_432;

// A step, for the years 1 to 10,001. The division by 19 is a product and a shift.
pub fn months_before(year: u64) -> Months
    requires { (1 ≤ year) × (year ≤ 10001) }
    ensures { IsMonths year result }
{
    let scaled = 235 * year - 234;
    let months = scaled * NINETEENTH / WHOLE;
    let remainder = scaled - 19 * months;
    Months {
        months,
        leap: 12 <= remainder,
        after_leap: remainder < 7,
    }
}

// Is the code no month of a year, leap or not?
#[tactic(auto, unfolding(molad::specs::Molad::no_month))]
pub fn no_month(leap: bool, month: u64) -> bool
    ensures { result ≡ no_month leap month }
{
    !(1..=13).contains(&month) | ((month == 6) & !leap)
}
