// The code that works out how many days after its molad a year begins, and why.
#![tactic(auto)]

ghost use Rattle.std.specs.Prelude.{◌≤◌};
ghost use Rattle.delays_code.specs.Steps.{IsDelay};

use delays::Delayed;

// The day begins at 18:00, so that noon is 18h 0p. Times are in parts, 1,080 to the hour.
const NOON: u64 = 18 * 1080;

const TUESDAY_LIMIT: u64 = 9 * 1080 + 204;

const MONDAY_LIMIT: u64 = 15 * 1080 + 589;

// The days on which no year begins, as bits: Sunday, Wednesday, Friday, and 8, the Sunday after a Saturday.
const CLOSED: u64 = (1 << 1) + (1 << 4) + (1 << 6) + (1 << 8);

// A step, for every weekday and every time. Each of the four is 1 where it applies, else 0, and days and causes add up:
// where the Tuesday or the Monday rule applies, none of the others does. Straight-line: whether a rule applies cannot be
// foretold, so that a branch would often be mispredicted.
pub fn delay(weekday: u64, time: u64, leap: bool, after_leap: bool) -> Delayed
    requires { (1 ≤ weekday) × (weekday ≤ 7) }
    ensures { IsDelay weekday time leap after_leap result }
{
    let noon = u64::from(NOON <= time);
    let closed = (CLOSED >> (weekday + noon)) % 2;
    let tuesday = u64::from(!leap & (weekday == 3) & (TUESDAY_LIMIT <= time) & (time < NOON));
    let monday = u64::from(after_leap & (weekday == 2) & (MONDAY_LIMIT <= time) & (time < NOON));
    Delayed {
        delay: noon + closed + 2 * tuesday + monday,
        cause: noon + 2 * closed + 4 * tuesday + 5 * monday,
    }
}
