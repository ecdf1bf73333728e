// The tables of rest days, one for each wing, and the rule that searches them.
#![tactic(auto)]

ghost use Rattle.std.specs.Prelude.{◌≡◌, ◌≤◌};
ghost use Rattle.laws.specs.Runs.{elem};
ghost use Rattle.rest.specs.Wings.{table_of};
ghost use Rattle.rest.specs.Steps.{rest_on};

mod wings;

use hebrew::YearDate;
pub use wings::Wing;

// How many rows each table has, wing 1's and the guest wing's.
pub const REST_ROWS: usize = 8;

pub const GUEST_ROWS: usize = 13;

// Wing 1: Tishri 1, 2, 10, 15, 22; Nisan 15, 21; Sivan 6. A row is 100 × month code + day.
pub const REST_TABLE: [u64; REST_ROWS] = [1_01, 1_02, 1_10, 1_15, 1_22, 8_15, 8_21, 10_06];

// Wing 2, the guest wing: these and second days, Tishri 16, 23; Nisan 16, 22; Sivan 7.
pub const GUEST_TABLE: [u64; GUEST_ROWS] = [
    1_01, 1_02, 1_10, 1_15, 1_16, 1_22, 1_23, 8_15, 8_16, 8_21, 8_22, 10_06, 10_07,
];

// Is there such a row in the table of the wing that answers for a number? It stays, for any number, since docs/DECISIONS.md
// names it.
pub fn kept(wing: u64, row: u64) -> bool
    ensures { result ≡ elem row (table_of wing) }
{
    Wing::of(wing).kept(row)
}

// Is it a rest day of the wing that answers for a number, as `Wing::rest_on` tells? It stays, for any number, since a note in
// docs/requests names it.
pub fn rest_on(wing: u64, weekday: u64, date: YearDate) -> bool
    requires { (weekday ≤ 400) × ((date.after ≤ 400) × ((date.month ≤ 13) × (date.day ≤ 400))) }
    ensures { result ≡ rest_on (table_of wing) weekday date }
{
    Wing::of(wing).rest_on(weekday, date)
}
