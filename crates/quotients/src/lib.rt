// Layer ground.
// Two whole numbers divided as 64-bit floats: both exact, and the quotient rounded once.
#![tactic(auto)]

ghost use Rattle.std.specs.Prelude.{◌≡◌, ◌<◌, ◌≤◌, ◌^◌};
ghost use Rattle.quotients.specs.Quotient.{rounded};

// The float nearest to a / b. Up to 2^53 every whole number is a float, so only the division rounds.
pub fn quotient(a: u64, b: u64) -> f64
    requires { (a ≤ 2 ^ 53) × ((0 < b) × (b ≤ 2 ^ 53)) }
    ensures { result ≡ rounded a b }
{
    a as f64 / b as f64
}
