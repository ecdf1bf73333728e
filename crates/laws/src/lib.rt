// The lemmas that several crates cite stand in specs/ and proofs/. The one piece of code chooses
// one of two numbers that are both at hand, so that the compiler needs no branch.
#![tactic(auto)]

ghost use Rattle.std.specs.Prelude.{◌≡◌, cond, ◌+◌, ◌≤◌};

// x where the test holds, else y.
pub fn pick(test: bool, x: u64, y: u64) -> u64
    ensures { (result ≡ cond test x y) × (result ≤ x + y) }
{
    if test { x } else { y }
}
