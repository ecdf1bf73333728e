// The wing and the year of a question, as any two numbers may name them.
ghost use Rattle.rest_code.specs.Asked.{IsAsked};

use newyear_code::Span;
use refusals::Refusal;
use rest_table::Wing;

// A step, before a list's buffer is looked at. Refusal 15 for a wing that is neither 1 nor 2; 1 for a year outside 1..9999.
#[tactic(auto, unfolding(rest::specs::Steps::list_refusal))]
pub fn asked(wing: u64, year: u64) -> Result<(Wing, Span), Refusal>
    ensures { IsAsked wing year result }
{
    Ok((Wing::try_from(wing)?, newyear_code::span_of_year(year)?))
}
