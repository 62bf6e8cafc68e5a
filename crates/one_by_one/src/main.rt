// Layer outside.
// Works the controller's input with functions that customers call: the fitting list is taken by `fit`, and each field is
// one `call` with the shortest reply buffer allowed. It prints what the controller prints. It tries each field first
// with a buffer that is one byte too short: if that is not refused with 1, or leaves a trace, it prints `wrong`, then
// `refused 1`, and ends.
#![tactic(auto)]

ghost use Rattle.std.specs.Prelude.{◌≡◌, true, length};
ghost use Rattle.engine.specs.Engine.{full_at};
ghost use Rattle.slots.specs.View.{Able};
ghost use Rattle.console.specs.Mendable.{mendable};
ghost use Rattle.one_by_one.specs.Called.{Unwritten, OneCall, cycle_told, answer_in};

use cycles::CycleOutcome;
use rack::{Called, Refusal};
use slots::Rack;
use stream::Works;

// What fills a reply buffer before a call: no reply contains this byte.
const UNWRITTEN: u8 = 0xA5;

// The shortest reply buffer that a call accepts, and the longest that it refuses.
const LEAST: usize = 512;

const SHORT: usize = 511;

// The byte that ends each line written.
const LF: u8 = 10;

// Whether the buffer is as it was before the call, from an index on.
fn unwritten(reply: &[u8], from: usize) -> bool
    ensures { (result ≡ true → Unwritten reply.now from)
        × (Unwritten reply.now from → result ≡ true) }
{
    for i in from..reply.len() {
        if reply[i] != UNWRITTEN {
            return false;
        }
    }
    true
}

// Fills the buffer as it has to be before a call.
fn fill(reply: &mut [u8])
    ensures { (length reply.new ≡ length reply.old) × Unwritten reply.new 0 }
{
    reply.fill(UNWRITTEN);
}

// Whether a call with a buffer that is one byte too short is refused as it should be.
fn refused_short(r: Rack, s: &[u8]) -> bool
    ensures { result ≡ true }
{
    let mut reply = [UNWRITTEN; SHORT];
    match rack::call(r, s, &mut reply) {
        Ok(_) => false,
        Err(refusal) => u8::from(refusal) == 1 && unwritten(&reply, 0),
    }
}

// A call as a cycle: its rack and its numbers, where a refused call leaves the rack as it was.
fn outcome_of(r: Rack, called: Result<Called, Refusal>) -> CycleOutcome
    ensures { result ≡ cycle_told r called }
{
    match called {
        Ok(field) => CycleOutcome {
            rack: field.rack,
            used: field.used,
            length: field.length,
            code: 0,
            reads_on: console::waits(0),
        },
        Err(refusal) => {
            let code = u8::from(refusal);
            CycleOutcome {
                rack: r,
                used: 0,
                length: 0,
                code,
                reads_on: console::waits(code),
            }
        }
    }
}

// The proofs show that this never happens; it is checked all the same, to test the machine code. No fitting list draws
// refusal 1.
fn put_wrong(r: Rack, out: &mut [u8]) -> CycleOutcome {
    let length = base::put_text(out, 0, b"wrong\n");
    CycleOutcome {
        rack: r,
        used: 0,
        length,
        code: 1,
        reads_on: false,
    }
}

// Works the first field of the bytes, by one call. What is to be written stands at the start of the buffer.
fn take_field(r: Rack, s: &[u8], out: &mut [u8]) -> CycleOutcome
    requires { Able r × (length out.old ≡ 512) }
    ensures call { OneCall r s.now (answer_in result) out.new }
    ensures reads_on { result.reads_on ≡ mendable result.code }
{
    let right = refused_short(r, s);
    fill(out);
    let outcome = outcome_of(r, rack::call(r, s, out));
    let n = outcome.length;
    if !(right & unwritten(out, n)) {
        return put_wrong(r, out);
    }
    buffers::end_lines(out, n, LF);
    outcome
}

// One field in a cycle.
struct Fields;

impl Works for Fields {
    ghost stop = { full_at 0 };

    ghost room = { 512 };

    fn fit(&self, list: &[u8]) -> Result<Rack, Refusal> {
        rack::fit(list)
    }

    fn cycle(&self, r: &Rack, s: &[u8], out: &mut [u8]) -> CycleOutcome {
        take_field(*r, s, out)
    }
}

fn main(rt: HostRuntime) {
    let mut out = [UNWRITTEN; LEAST];
    stream::run(&rt, &Fields, &mut out);
}
