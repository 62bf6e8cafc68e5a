// Layer calls.
// Fields of tags 2 to 5, which name their address: each is a piece that needs only the supply there. The definitions
// say what any piece does, and those of `pieces` build on them.
#![tactic(auto)]

ghost use Rattle.std.specs.Prelude.{◌≡◌, true, false, ◌<◌, get_or, IfSome};
ghost use Rattle.serial.specs.View.{model_in};
ghost use Rattle.wire.specs.Wire.{fitted};
ghost use Rattle.supply.specs.declared.Act.TheVariants.{Sample};
ghost use Rattle.acts.specs.Acts.{performed};
ghost use Rattle.field.specs.Fields.{pair_at};
ghost use Rattle.addressed.specs.Addressed.{EventDoes, sample_model};

use field::Refusal;
use supply::Supply;
use wire::Setup;

// What a field of tags 2 to 5 leaves: the supply of the slot that it names, and the number of bytes used.
#[derive(Clone, Copy)]
pub struct Evented {
    pub supply: Supply,
    pub used: usize,
}

// A field that is not serial, where s is the supply at the address that it names.
pub fn take_event(u: Setup, s: Supply, b: &[u8]) -> Result<Evented, Refusal>
    ensures { EventDoes u s b.now result }
{
    let header = field::read_header(b)?;
    let tag = header.tag;
    let p = field::payload(b, header.length);
    let a = field::byte_at(p, 0);
    let Some(model) = serial::model_at(u, a) else {
        return Err(Refusal::NoSupply);
    };
    if !payloads::values_fit(tag, p) {
        return Err(Refusal::ValueNotListed);
    }
    let done = acts::perform(model, s, payloads::act_of(tag, p));
    Ok(Evented {
        supply: done.unwrap_or(s),
        used: 3 + header.length,
    })
}

// The model of the supply that a sample names, if the next piece is a sample. Most fields are samples.
pub fn sample_model(u: Setup, b: &[u8], left: usize) -> Option<u8>
    ensures model { result ≡ model_in (sample_model u b.now left) }
    ensures inside { IfSome result (λ _. get_or b.now 3 0 < 31) }
{
    if left != 0 || !payloads::is_sample(b) {
        return None;
    }
    serial::model_at(u, field::byte_at(b, 3))
}

// The sample with which the bytes begin, taken by a supply of this model.
pub fn take_sample(model: u8, s: Supply, b: &[u8]) -> Supply
    ensures { result ≡ performed model s (Sample (pair_at b.now 4) (pair_at b.now 6)) }
{
    let counts = payloads::sample_counts(b);
    acts::sampled(model, s, counts.volts, counts.amps)
}

// The slot of an address, or the first slot if there is no supply at the address.
pub fn slot_or_first(u: Setup, a: u8) -> usize
    ensures { (result < 31) × (fitted u a ≡ true → result ≡ a) × (fitted u a ≡ false → result ≡ 0) }
{
    if serial::has_supply(u, a) {
        usize::from(a)
    } else {
        0
    }
}
