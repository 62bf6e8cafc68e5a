// Layer reply.
// A supply that performs an act and replies to it; the reply is placed into a lent buffer.
#![tactic(auto)]

ghost use Rattle.std.specs.Prelude.{◌≡◌};
ghost use Rattle.base.specs.Put.{Put};
ghost use Rattle.supply.specs.ErrorCodes.{code_told, supply_left};
ghost use Rattle.acts.specs.Acts.{code_of, performed};
ghost use Rattle.texts.specs.Texts.{code_text, reply_of};
ghost use Rattle.reply.specs.Obeying.{said_of};

use supply::{Act, ErrorCode, Query, Supply};

// The supply after a line, and the index after its reply.
#[derive(Drop)]
pub struct Obeyed {
    pub supply: Supply,
    pub next: usize,
}

// Replies to what came of an act of s: OK or an error code. A refusal leaves s as it was.
fn say_code(
    s: Supply,
    done: Result<Supply, ErrorCode>,
    checksummed: bool,
    buf: &mut [u8],
    at: usize,
) -> Obeyed
    ensures does { result.supply ≡ supply_left s done }
    ensures says { Put buf.old at (reply_of checksummed (code_text (code_told done)))
        result.next buf.new }
{
    let next = texts::put_told_reply(buf, at, done.map(|_| ()), checksummed);
    Obeyed {
        supply: done.unwrap_or(s),
        next,
    }
}

// A query is answered from the supply as it stands.
fn ask(model: u8, s: Supply, q: Query, checksummed: bool, buf: &mut [u8], at: usize) -> Obeyed
    ensures does { result.supply ≡ performed model s (Act.Ask q) }
    ensures says { Put buf.old at (reply_of checksummed (said_of model s (Act.Ask q)))
        result.next buf.new }
{
    let next = texts::put_answer_reply(buf, at, answers::answer_to(model, s, q), checksummed);
    Obeyed {
        supply: acts::asked(model, s, q),
        next,
    }
}

// A supply performs an act of a line and replies. Most lines are queries and orders, and these go straight to
// functions of their own: perform would sort them out once more.
pub fn obey(model: u8, s: Supply, a: Act, checksummed: bool, buf: &mut [u8], at: usize) -> Obeyed
    ensures does { result.supply ≡ performed model s a }
    ensures says { Put buf.old at (reply_of checksummed (said_of model s a))
        result.next buf.new }
{
    match a {
        Act::Ask(q) => ask(model, s, q, checksummed, buf, at),
        Act::Obey(o) => say_code(s, acts::obey_order(model, s, o), checksummed, buf, at),
        _ => say_code(s, acts::perform(model, s, a), checksummed, buf, at),
    }
}
