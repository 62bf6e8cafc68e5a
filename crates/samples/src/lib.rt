// Layer supply.
// What a sample does to a supply: its counts are stored, it may trip the supply, and it may be judged CV.
#![tactic(auto)]

ghost use Rattle.std.specs.Prelude.{◌≡◌};
ghost use Rattle.samples.specs.Samples.{sampled};

use supply::Supply;

// A sample of two counts. Their readings matter only while the output is on, since only then can they trip or be judged
// CV. Foldback needs the CV memory, so a cell that starts in current limit does not trip.
#[tactic(auto, unfolding(crate::specs::Samples::sampled, supply::specs::Flt::in_limit))]
pub fn sampled_at(model: u8, s: Supply, v: u16, a: u16) -> Supply
    ensures { result ≡ sampled model s v a }
{
    let counted = Supply {
        volt_count: v,
        amp_count: a,
        ..s
    };
    if !s.is_on() {
        return counted;
    }
    let read = models::readings_of(model, v, a);
    let over = u64::from(s.ovp) <= read.volts;
    let limited = s.reaches_pc(read.amps);
    Supply {
        ovp_trip: over || s.ovp_trip,
        fold_trip: (!over && limited && s.armed && s.cv_seen) || s.fold_trip,
        cv_seen: (!over && !limited) || s.cv_seen,
        ..counted
    }
}
