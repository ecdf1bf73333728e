// Signed years and raised years, the only place of this crate that handles a sign.
ghost use Rattle.std.specs.Prelude.{◌≡◌, ◌≤◌, true, false, MatchResult};
ghost use Rattle.civil.specs.Calendar.{last_raised};
ghost use Rattle.civil.specs.Signed.{covered, raised, lowered};

use refusals::Refusal;

// year + 4,000, for a year in −3760..6239. Refusal 5 for another.
pub fn raised(year: i64) -> Result<u64, Refusal>
    ensures { MatchResult result (λ s. (covered year ≡ true) × (s ≡ raised year)) (λ why. (covered year ≡ false) × (why ≡ Refusal.BadCivilYear)) }
{
    if !(-3760..=6239).contains(&year) {
        return Err(Refusal::BadCivilYear);
    }
    Ok((year + 4000).cast_unsigned())
}

// A step, for raised years.
pub fn lowered(number: u64) -> i64
    requires { number ≤ last_raised }
    ensures { result ≡ lowered number }
{
    number.cast_signed() - 4000
}
