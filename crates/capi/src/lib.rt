// Layer outside.
// `fit`, `call` and `cell_at` for programs in C or Rust, as `capi_c` exports them. The rack stays in its owner's memory.
#![tactic(auto)]

ghost use Rattle.std.specs.Prelude.{◌≡◌};
ghost use Rattle.fitting.specs.Fit.{FitDoes};
ghost use Rattle.calls.specs.Calls.{CallDoes};
ghost use Rattle.resistance.specs.Cells.{cell_at};
ghost use Rattle.resistance.specs.Numbers.{cell_numbers};
ghost use Rattle.capi.specs.Lent.{answer_with};

use fitting::Fitted;
use resistance::CellNumbers;
use slots::Rack;

// What a call returns besides the rack: code 0, the bytes used and the length of the reply; or the number of a refusal,
// 0 and 0.
#[repr(C)]
#[derive(Clone, Copy)]
pub struct Done {
    pub code: u8,
    pub used: usize,
    pub length: usize,
}

// The fresh rack of a fitting list; or code 8 and a rack of empty slots.
pub fn pu_fit(list: &[u8]) -> Fitted
    ensures { FitDoes list.now result }
{
    fitting::fitted_numbers(list)
}

// One call: works the first field of the lent bytes on the lent rack. The contract is that of `call`, so a list of
// these calls on a rack from `pu_fit` is a `Run` of isolation/specs/Demand3.antt, and what is stated there about racks
// holds for the lent one.
pub fn pu_call(rack: &mut Rack, bytes: &[u8], reply: &mut [u8]) -> Done
    ensures { CallDoes rack.old bytes.now reply.old
        (answer_with result rack.new) reply.new }
{
    match calls::call(*rack, bytes, reply) {
        Ok(called) => {
            *rack = called.rack;
            Done {
                code: 0,
                used: called.used,
                length: called.length,
            }
        }
        Err(refusal) => Done {
            code: u8::from(refusal),
            used: 0,
            length: 0,
        },
    }
}

// The resistance of the cell at an address, and the readings of its supply; or code 6. The lent rack is only read.
pub fn pu_resistance(rack: &Rack, address: u64) -> CellNumbers
    ensures { result ≡ cell_numbers (cell_at rack.now address) }
{
    resistance::cell_numbers(*rack, address)
}
