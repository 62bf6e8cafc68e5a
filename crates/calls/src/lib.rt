// Layer calls.
// One call on a rack: works or refuses the first field of the lent bytes, and writes its replies and the service
// messages after them.
#![tactic(auto)]

ghost use Rattle.calls.specs.Calls.{answer_told, CallDoes};

use field::Refusal;
use slots::Rack;

// The byte that ends each reply and each message.
const CR: u8 = 13;

// What an accepted field leaves: the rack after it, the bytes used and the length of the reply.
#[derive(Clone, Copy)]
pub struct Called {
    pub rack: Rack,
    pub used: usize,
    pub length: usize,
}

// One call: works the first field of the lent bytes and writes its replies and messages to the start of the buffer.
pub fn call(r: Rack, bytes: &[u8], reply: &mut [u8]) -> Result<Called, Refusal>
    ensures { CallDoes r bytes.now reply.old (answer_told r result) reply.new }
{
    if reply.len() < 512 {
        return Err(Refusal::ShortBuffer);
    }
    let worked = engine::work(r, bytes, reply, 0, CR);
    match worked.refusal {
        Some(refusal) => Err(refusal),
        None => Ok(Called {
            rack: worked.rack,
            used: worked.used,
            length: worked.next,
        }),
    }
}
