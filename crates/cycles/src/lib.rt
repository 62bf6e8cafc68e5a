// Layer outside.
// One cycle of the program: the bytes read are worked, and what is to be written is collected.
#![tactic(auto)]

ghost use Rattle.std.specs.Prelude.{◌≡◌, length};
ghost use Rattle.slots.specs.View.{Able};
ghost use Rattle.cycles.specs.Cycle.{CycleDoes};

use slots::Rack;

// Replies are collected up to this index of their buffer of 8,192 bytes; after it there is still room for the replies
// of any field.
const FULL: usize = 7_680;

// The byte that ends each line written.
const LF: u8 = 10;

// The outcome of a cycle: the rack after it, the bytes used, how many bytes are to be written, the number of the
// refusal that ended it (0 if the buffer was full), and whether to read on because further bytes may mend the refusal.
// The number stays one, as what the programs do with it (`goes_on`, `told_at_end`, `say_refusal`) takes any number.
#[derive(Clone, Copy)]
pub struct CycleOutcome {
    pub rack: Rack,
    pub used: usize,
    pub length: usize,
    pub code: u8,
    pub reads_on: bool,
}

// Works the bytes read, up to a refusal or a full buffer. What is to be written stands at the start of the buffer.
pub fn cycle(r: Rack, s: &[u8], out: &mut [u8]) -> CycleOutcome
    requires { Able r × (length out.old ≡ 8192) }
    ensures { CycleDoes r s.now out.old result out.new }
{
    let w = engine::work(r, s, out, FULL, LF);
    let code = field::refusal_code(w.refusal);
    CycleOutcome {
        rack: w.rack,
        used: w.used,
        length: w.next,
        code,
        reads_on: console::waits(code),
    }
}
