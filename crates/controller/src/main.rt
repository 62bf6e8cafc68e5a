// Layer outside.
// The program: reads a fitting list and then fields from standard input, and writes their replies and messages to
// standard output with LF at the end of each line. It replies to a field as soon as the field's last byte is there. It
// prints a refusal and ends.
#![tactic(auto)]

ghost use Rattle.engine.specs.Engine.{full_at};

use cycles::CycleOutcome;
use field::Refusal;
use slots::Rack;
use stream::Works;

// As many fields in a cycle as the bytes read and the buffer allow.
struct Cycles;

impl Works for Cycles {
    ghost stop = { full_at 7680 };

    ghost room = { 8192 };

    fn fit(&self, list: &[u8]) -> Result<Rack, Refusal> {
        fitting::fit(list)
    }

    fn cycle(&self, r: &Rack, s: &[u8], out: &mut [u8]) -> CycleOutcome {
        cycles::cycle(*r, s, out)
    }
}

fn main(rt: HostRuntime) {
    let mut out = console::buffer();
    stream::run(&rt, &Cycles, &mut out);
}
