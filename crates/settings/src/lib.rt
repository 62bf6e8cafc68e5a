// Layer supply.
// The four settings, the range of each, and a knob step on one.
#![tactic(auto)]

ghost use Rattle.std.specs.Prelude.{◌≡◌, min, max, pos, ◌+ℤ◌};
ghost use Rattle.models.specs.Models.{limits_of};
ghost use Rattle.settings.specs.Settings.{setting_of, with_setting, least_of, most_of, signed_of, nat_part, stepped};

use supply::{Supply, Target};

#[tactic(auto, unfolding(crate::specs::Settings::setting_of))]
fn setting(s: Supply, t: Target) -> u32
    ensures { result ≡ setting_of t s }
{
    match t {
        Target::Pv => s.pv,
        Target::Pc => s.pc,
        Target::Ovp => s.ovp,
        Target::Uvl => s.uvl,
    }
}

#[tactic(auto, unfolding(crate::specs::Settings::with_setting))]
pub fn with_setting(s: Supply, t: Target, x: u32) -> Supply
    ensures { result ≡ with_setting t x s }
{
    match t {
        Target::Pv => Supply { pv: x, ..s },
        Target::Pc => Supply { pc: x, ..s },
        Target::Ovp => Supply { ovp: x, ..s },
        Target::Uvl => Supply { uvl: x, ..s },
    }
}

// The least value of a setting that keeps margins and limits; a margin is a quotient rounded up.
#[tactic(auto, unfolding(crate::specs::Settings::least_of))]
fn least_of(model: u8, s: Supply, t: Target) -> u64
    ensures { result ≡ least_of (limits_of model) s t }
{
    let l = models::limits_of(model);
    match t {
        Target::Pv => (20 * u64::from(s.uvl)).div_ceil(19),
        Target::Pc => 0,
        Target::Ovp => u64::from(l.ovp_least).max((21 * u64::from(s.pv)).div_ceil(20)),
        Target::Uvl => 0,
    }
}

// The greatest value of a setting that keeps margins and limits.
#[tactic(auto, unfolding(crate::specs::Settings::most_of))]
fn most_of(model: u8, s: Supply, t: Target) -> u64
    ensures { result ≡ most_of (limits_of model) s t }
{
    let l = models::limits_of(model);
    match t {
        Target::Pv => (21 * u64::from(l.volts) / 20).min(20 * u64::from(s.ovp) / 21),
        Target::Pc => 21 * u64::from(l.amps) / 20,
        Target::Ovp => u64::from(l.ovp_most),
        Target::Uvl => u64::from(l.uvl_most).min(19 * u64::from(s.pv) / 20),
    }
}

// x plus a step in exact arithmetic, or 0 if the sum is negative.
fn with_step(x: u32, raw: u32) -> u64
    ensures { result ≡ nat_part (pos x +ℤ signed_of raw) }
{
    u64::from(x).saturating_add_signed(i64::from(raw.cast_signed()))
}

// A setting after a step; if margins or limits forbid the sum, the allowed value nearest to it.
#[tactic(auto, using(crate::proofs::Numbers::most_fits), unfolding(crate::specs::Settings::stepped, crate::specs::Settings::nearest_in))]
pub fn stepped_setting(model: u8, s: Supply, t: Target, raw: u32) -> u32
    ensures { result ≡ stepped (limits_of model) s t raw }
{
    let lo = least_of(model, s, t);
    let hi = most_of(model, s, t);
    let x = with_step(setting(s, t), raw);
    hi.min(lo.max(x)) as u32
}
