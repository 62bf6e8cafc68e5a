// Layer rack.
// The values in a field's payload: whether they are listed, and what they ask of a supply. Nothing here knows the rack.
#![tactic(auto)]

ghost use Rattle.std.specs.Prelude.{◌≡◌, ◌<◌};
ghost use Rattle.field.specs.Fields.{pair_at, quad_at, is_sample, values_fit, press_of, turn_of, act_of};

use supply::{Act, Key, NotListed, Target};

// The two counts of a sample.
#[derive(Clone, Copy)]
pub struct Counts {
    pub volts: u16,
    pub amps: u16,
}

// Four bytes as one number, high byte first.
fn quad_at(s: &[u8], i: usize) -> u32
    requires { i < 65534 }
    ensures { result ≡ quad_at s.now i }
{
    u32::from(field::pair_at(s, i)) * 65536 + u32::from(field::pair_at(s, i + 2))
}

// Whether the bytes begin with a complete sample.
#[tactic(auto, unfolding(field::specs::Fields::is_sample))]
pub fn is_sample(b: &[u8]) -> bool
    ensures { result ≡ is_sample b.now }
{
    8 <= b.len() && field::byte_at(b, 0) == 5 && field::pair_at(b, 1) == 5
}

// The counts of the sample with which the bytes begin.
pub fn sample_counts(b: &[u8]) -> Counts
    ensures { result ≡ record { volts = pair_at b.now 4; amps = pair_at b.now 6 } }
{
    Counts {
        volts: field::pair_at(b, 4),
        amps: field::pair_at(b, 6),
    }
}

// Whether the key, target or LINES of a field has one of the listed values.
#[tactic(auto, unfolding(field::specs::Fields::values_fit))]
pub fn values_fit(tag: u8, p: &[u8]) -> bool
    ensures { result ≡ values_fit tag p.now }
{
    let x = field::byte_at(p, 1);
    match tag {
        2 => Key::try_from(x).is_ok(),
        3 => Target::try_from(x).is_ok(),
        4 => x & 0x59 == 0,
        _ => true,
    }
}

// A press of the key with this number.
#[tactic(auto, unfolding(field::specs::Fields::press_of))]
fn press_of(n: u8) -> Act
    ensures { result ≡ press_of n }
{
    match Key::try_from(n) {
        Ok(key) => Act::Press(key),
        Err(NotListed) => Act::Nothing,
    }
}

// The knob turned for the target with this number.
#[tactic(auto, unfolding(field::specs::Fields::turn_of))]
fn turn_of(n: u8, step: u32) -> Act
    ensures { result ≡ turn_of n step }
{
    match Target::try_from(n) {
        Ok(target) => Act::Turn(target, step),
        Err(NotListed) => Act::Nothing,
    }
}

// What a field of tags 2 to 5 asks of its supply.
#[tactic(auto, unfolding(field::specs::Fields::act_of))]
pub fn act_of(tag: u8, p: &[u8]) -> Act
    ensures { result ≡ act_of tag p.now }
{
    match tag {
        2 => press_of(field::byte_at(p, 1)),
        3 => turn_of(field::byte_at(p, 1), quad_at(p, 2)),
        4 => Act::Lines(field::byte_at(p, 1)),
        5 => Act::Sample(field::pair_at(p, 1), field::pair_at(p, 3)),
        _ => Act::Nothing,
    }
}
