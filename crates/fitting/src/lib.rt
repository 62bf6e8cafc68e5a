// Layer calls.
// A fitting list: the check of its bytes, its models, and the fresh rack that they make.
#![tactic(auto)]

ghost use Rattle.std.specs.Prelude.{◌≡◌, true, false, replicate, MatchResult};
ghost use Rattle.field.specs.declared.Refusal.TheVariants.{BadList};
ghost use Rattle.fitting.specs.Fitting.{all_allowed, good_list, Made};
ghost use Rattle.fitting.specs.Fit.{fitted_told, FitDoes};

use field::Refusal;
use slots::Rack;
use supply::Supply;
use wire::Setup;

// What a fitting list makes, as numbers for programs in C: code 0 and a fresh rack, or code 8 and a rack of empty slots.
#[repr(C)]
#[derive(Clone, Copy)]
pub struct Fitted {
    pub code: u8,
    pub rack: Rack,
}

// Models are numbered below this.
const MODELS: u8 = 12;

// The number that stands for an empty slot.
const EMPTY: u8 = 255;

// Whether each byte is a model number, or 255 for an empty slot.
fn all_allowed(list: &[u8]) -> bool
    ensures { result ≡ all_allowed list.now }
{
    list.iter().all(|m| *m < MODELS || *m == EMPTY)
}

// The fresh rack of these models.
#[inline(always)]
fn fresh_rack(models: [u8; 31]) -> Rack
    ensures { Made (record { models = models }) result }
{
    Rack {
        slots: models.map(Supply::fresh),
        line: serial::fresh_line(),
        setup: Setup { models },
    }
}

// The rack of 31 empty slots.
pub fn empty_rack() -> Rack
    ensures { Made (record { models = replicate 31 255 }) result }
{
    fresh_rack([EMPTY; 31])
}

// The models of a fitting list: 31 bytes, each the model of a slot, or 255 if the slot is empty.
fn models_of(list: &[u8]) -> Result<[u8; 31], Refusal>
    ensures { MatchResult result (λ models. (good_list list.now ≡ true) × (models ≡ list.now))
        (λ refusal. (good_list list.now ≡ false) × (refusal ≡ BadList)) }
{
    let Ok(models) = <[u8; 31]>::try_from(list) else {
        return Err(Refusal::BadList);
    };
    if all_allowed(list) {
        Ok(models)
    } else {
        Err(Refusal::BadList)
    }
}

// Makes a rack from a fitting list.
pub fn fit(list: &[u8]) -> Result<Rack, Refusal>
    ensures { FitDoes list.now (fitted_told result) }
{
    let models = models_of(list)?;
    Ok(fresh_rack(models))
}

// `fit` as numbers, made where they are to stand: a rack in a `Result` would have to be copied out of it.
pub fn fitted_numbers(list: &[u8]) -> Fitted
    ensures { FitDoes list.now result }
{
    match models_of(list) {
        Ok(models) => Fitted {
            code: 0,
            rack: fresh_rack(models),
        },
        Err(refusal) => Fitted {
            code: u8::from(refusal),
            rack: empty_rack(),
        },
    }
}
