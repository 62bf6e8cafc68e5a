// Layer outside.
// The exported functions for programs in C or Rust, and nothing else. Each has the contract of its namesake in `capi`.
#![tactic(auto)]

ghost use Rattle.std.specs.Prelude.{◌≡◌};
ghost use Rattle.fitting.specs.Fit.{FitDoes};
ghost use Rattle.calls.specs.Calls.{CallDoes};
ghost use Rattle.resistance.specs.Cells.{cell_at};
ghost use Rattle.resistance.specs.Numbers.{cell_numbers};
ghost use Rattle.capi.specs.Lent.{answer_with};

use capi::Done;
use fitting::Fitted;
use resistance::CellNumbers;
use slots::Rack;

// The fresh rack of a fitting list; or code 8 and a rack of empty slots.
#[unsafe(no_mangle)]
pub extern "C" fn pu_fit(list: &[u8]) -> Fitted
    ensures { FitDoes list.now result }
{
    capi::pu_fit(list)
}

// One call: works the first field of the lent bytes on the lent rack.
#[unsafe(no_mangle)]
pub extern "C" fn pu_call(rack: &mut Rack, bytes: &[u8], reply: &mut [u8]) -> Done
    ensures { CallDoes rack.old bytes.now reply.old
        (answer_with result rack.new) reply.new }
{
    capi::pu_call(rack, bytes, reply)
}

// The resistance of the cell at an address, and the readings of its supply; or code 6.
#[unsafe(no_mangle)]
pub extern "C" fn pu_resistance(rack: &Rack, address: u64) -> CellNumbers
    ensures { result ≡ cell_numbers (cell_at rack.now address) }
{
    capi::pu_resistance(rack, address)
}
