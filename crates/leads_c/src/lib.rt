// Layer wiring.
// The lead adviser for programs in C or Rust: the exported functions, and nothing else.
#![tactic(auto)]

ghost use Rattle.std.specs.Prelude.{◌≡◌};
ghost use Rattle.leads.specs.Longest.{longest_of, lead_numbers};
ghost use Rattle.leads.specs.Advice.{Suitable, advice_of, gauge_numbers};

use leads::{GaugeFor, LongestLead};

// How long a lead of this gauge may be, as numbers.
#[unsafe(no_mangle)]
pub extern "C" fn pu_longest_lead(gauge: u64, ma: u64) -> LongestLead
    ensures { result ≡ lead_numbers (longest_of gauge ma) }
{
    leads::pu_longest_lead(gauge, ma)
}

// A gauge that suits, as numbers.
#[unsafe(no_mangle)]
pub extern "C" fn pu_gauge_for(ma: u64, mm: u64) -> GaugeFor
    ensures { (result ≡ gauge_numbers (advice_of ma mm result.gauge)) × (Suitable ma mm result.gauge) }
{
    leads::pu_gauge_for(ma, mm)
}
