// Layer outside.
// The input as a stream: the bytes read but not yet worked, the read that brings more of them, and the loop of a program,
// which works them cycle by cycle.
#![tactic(auto)]

ghost use Rattle.std.specs.Prelude.{ℕ, ◌≡◌, Bool, true, false, ◌<◌, length};
ghost use Rattle.slots.specs.View.{Able};
ghost use Rattle.fitting.specs.Fit.{fitted_told, FitDoes};
ghost use Rattle.stream.specs.Stream.{unworked, Refilled, goes_on, told};
ghost use Rattle.stream.specs.Turn.{Turned};

use cycles::CycleOutcome;
use field::Refusal;
use slots::Rack;

// The length of a fitting list.
const LIST: usize = 31;

// What takes the fitting list, and works the fields of one cycle. A program differs from the other in this alone.
pub trait Works {
    // Whether a cycle stops, by the length of what its fields have said.
    ghost stop: { ℕ → Bool };

    // The length of the buffer for what is to be written.
    ghost room: { ℕ };

    // The rack of a fitting list: the one that `fit` of `fitting` makes, unless a program takes the list by another `fit`.
    fn fit(&self, list: &[u8]) -> Result<Rack, Refusal>
        ensures { FitDoes list.now (fitted_told result) }
    {
        fitting::fit(list)
    }

    // One cycle over the bytes read. What is to be written stands at the start of the buffer.
    fn cycle(&self, r: &Rack, s: &[u8], out: &mut [u8]) -> CycleOutcome
        requires { Able r.now × (length out.old ≡ room) }
        ensures { Turned stop r.now s.now result out.new };
}

// The bytes read stand before the index `end` of their room, and those before the index `from` are worked. Also:
// whether the last read brought any or failed for good, and how many reads may still be made.
#[derive(Clone, Copy)]
pub struct Block {
    pub from: usize,
    pub end: usize,
    pub brought: bool,
    pub failed: bool,
    pub reads: u64,
}

// The state before the first read; it allows more reads than any run makes.
pub fn no_block() -> Block
    ensures { result ≡ record { from = 0; end = 0; brought = true; failed = false; reads = 18446744073709551615 } }
{
    Block {
        from: 0,
        end: 0,
        brought: true,
        failed: false,
        reads: u64::MAX,
    }
}

// After a refusal, keeps the bytes not yet worked and reads more after them; after a full buffer (code 0), does
// nothing.
pub fn refill(rt: &HostRuntime, room: &mut [u8], b: Block, code: u8) -> Block
    requires { (code ≡ 0 → ⊥) → (length (unworked room.old b) < length room.old) × (0 < b.reads) }
    ensures { (code ≡ 0 → (result ≡ b) × (room.new ≡ room.old))
        × ((code ≡ 0 → ⊥) → Refilled (unworked room.old b) room.new b result) }
{
    if code == 0 {
        return b;
    }
    let kept = buffers::keep_rest(room, b.from, b.end);
    let got = console::take_block(rt, room, kept);
    Block {
        from: 0,
        end: got.count,
        brought: kept < got.count,
        failed: got.failed,
        reads: b.reads - 1,
    }
}

// Whether a program goes on after a cycle: its replies are written, and either a full buffer stopped it or more bytes
// may come and mend the refusal. The code may be any number, and a type of refusals would ask more of callers.
pub fn goes_on(sent: bool, code: u8, waits: bool, b: Block) -> bool
    ensures { result ≡ goes_on sent code waits b }
{
    sent & ((code == 0) | (waits & b.brought & (0 < b.reads)))
}

// The number that a program prints at its end: that of the refusal if bytes are left and no fault ended it, otherwise
// 0.
pub fn told_at_end(sent: bool, code: u8, b: Block) -> u8
    ensures { result ≡ told sent code b }
{
    if sent & !b.failed & (b.from < b.end) {
        code
    } else {
        0
    }
}

// Works the input cycle by cycle and writes the replies of each, until the input ends, a field is refused or a fault
// occurs; returns the number of the refusal, or 0.
fn take_input<W: Works>(rt: &HostRuntime, works: &W, r: Rack, room: &mut [u8], out: &mut [u8]) -> u8
    requires { Able r × (length out.old ≡ W.room) × (length room.old ≡ 8192) }
{
    let mut rack = r;
    let mut block = no_block();
    let mut code = 2;
    let mut sent = true;
    let mut more = true;
    while more {
        block = refill(rt, room, block, code);
        let there = base::part_to(room, block.end);
        let t = works.cycle(&rack, base::part_from(there, block.from), out);
        rack = t.rack;
        code = t.code;
        sent = console::write_out(rt, base::part_to(out, t.length));
        block.from += t.used;
        more = goes_on(sent, code, t.reads_on, block);
    }
    told_at_end(sent, code, block)
}

// A whole program: reads a fitting list, works the fields after it, and prints the refusal that ends it, if one does.
pub fn run<W: Works>(rt: &HostRuntime, works: &W, out: &mut [u8])
    requires { length out.old ≡ W.room }
{
    let mut list = [0u8; LIST];
    let got = console::read_full(rt, &mut list);
    if got.failed {
        return;
    }
    let code = match works.fit(base::part_to(&list, got.count)) {
        Ok(rack) => {
            let mut room = console::buffer();
            take_input(rt, works, rack, &mut room, out)
        }
        Err(refusal) => u8::from(refusal),
    };
    if code != 0 {
        console::say_refusal(rt, code);
    }
}

#[cfg(test)]
mod tests;
