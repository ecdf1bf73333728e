// What several programs print, a refusal and a civil date; and one number for many.
#![tactic(auto)]

ghost use Rattle.std.specs.Prelude.{◌≡◌, ◌+◌, ◌*◌, ◌%◌, unsigned_abs};

mod shown;

pub use shown::{Date, Refused};

// How far a number is from 0. It stays beside std's `unsigned_abs` since docs/PROMISES.md names it.
pub fn magnitude(n: i64) -> u64
    ensures { result ≡ unsigned_abs n }
{
    n.unsigned_abs()
}

const PRIME: u64 = 1_000_000_007;

// The numbers so far, as figures to the base 31, and one more.
pub fn mixed(sum: u64, next: u64) -> u64
    ensures { result ≡ (sum % 1000000007 * 31 + next % 1000000007) % 1000000007 }
{
    (sum % PRIME * 31 + next % PRIME) % PRIME
}
