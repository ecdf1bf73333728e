// From a day of August to a day number.
ghost use Rattle.std.specs.Prelude.{◌≡◌, ◌≤◌};
ghost use Rattle.molad.specs.Years.{InNewYears};
ghost use Rattle.rhodes.specs.Rhodes.{day_of_august};

// A step, for the years 1 to 10,000: a day of August of Julian year H − 3761, counted on past 31. Day 0 of year 1's, 31
// July −3760, is day number 347,930. A year later it is 365 days on, and one more every fourth year, −3760 being leap.
pub fn day_of_august(year: u64, day: u64) -> u64
    requires { InNewYears year × (day ≤ 100) }
    ensures { (result ≡ day_of_august year day) × (result ≤ 4001000) }
{
    let years = year - 1;
    347_930 + 365 * years + years / 4 + day
}
