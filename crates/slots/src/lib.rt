// Layer rack.
// A line at its CR, worked with only the line and the supply of the selected slot; and the rack that its definitions
// describe.
#![tactic(auto)]

ghost use Rattle.std.specs.Prelude.{◌≡◌};
ghost use Rattle.wire.specs.Wire.{select, faulty};
ghost use Rattle.supply.specs.ErrorCodes.{code_byte};
ghost use Rattle.texts.specs.Texts.{code_text, reply_of};
ghost use Rattle.protocol.specs.SentBack.{Sized};
ghost use Rattle.serial.specs.declared.Line.{Line};
ghost use Rattle.serial.specs.View.{line_of};
ghost use Rattle.slots.specs.View.{EndsByClass, Asked, EndsLine};

use asks::Asks;
use command::Heard;
use reply::Obeyed;
use serial::Line;
use supply::{Act, ErrorCode, Order, Supply};
use wire::Setup;

// The rack by value: 31 slots, the serial line and the setup.
#[repr(C)]
#[derive(Clone, Copy)]
pub struct Rack {
    pub slots: [Supply; 31],
    pub line: Line,
    pub setup: Setup,
}

// What a line leaves at its CR, besides a line that keeps nothing: the slot selected now, the supply of the slot
// selected before, the index after the reply, and an order for all, if it is one.
#[derive(Clone, Copy)]
pub struct Ended {
    pub selected: u8,
    pub supply: Supply,
    pub next: usize,
    pub order: Option<Order>,
}

// The end of a line for at most one supply.
fn one_ended(selected: u8, supply: Supply, next: usize) -> Ended
    ensures { result ≡ record { selected = selected; supply = supply; next = next; order = None } }
{
    Ended {
        selected,
        supply,
        next,
        order: None,
    }
}

// ADR: selects the slot of an address, which says OK; if it is empty, nobody is selected.
fn select_slot(u: Setup, s: Supply, a: u8, checksummed: bool, buf: &mut [u8], at: usize) -> Ended
    ensures { (result.order ≡ None)
        × ((l : Line) → EndsByClass u l s (select a (reply_of checksummed (code_text 0)))
        result buf.old at buf.new) }
{
    if serial::has_supply(u, a) {
        let next = texts::put_told_reply(buf, at, Ok(()), checksummed);
        one_ended(a, s, next)
    } else {
        one_ended(serial::NOBODY, s, at)
    }
}

// The selected slot, if there is one, replies with an error code; nothing else changes.
fn say_code(
    u: Setup,
    selected: u8,
    s: Supply,
    code: ErrorCode,
    checksummed: bool,
    buf: &mut [u8],
    at: usize,
) -> Ended
    ensures { (result.order ≡ None)
        × ((l : Line) → l.selected ≡ selected → EndsByClass u l s (faulty (reply_of checksummed (code_text (code_byte code))))
        result buf.old at buf.new) }
{
    if serial::has_supply(u, selected) {
        let next = texts::put_told_reply(buf, at, Err(code), checksummed);
        one_ended(selected, s, next)
    } else {
        one_ended(selected, s, at)
    }
}

// A line for the selected slot, if there is one: its supply obeys and replies.
fn tell_one(
    u: Setup,
    selected: u8,
    s: Supply,
    a: Act,
    checksummed: bool,
    buf: &mut [u8],
    at: usize,
) -> Ended
    ensures { (result.order ≡ None)
        × ((l : Line) → l.selected ≡ selected
        → Asked u l s a checksummed result buf.old at buf.new) }
{
    let Some(model) = serial::model_at(u, selected) else {
        return one_ended(selected, s, at);
    };
    let Obeyed { supply, next } = reply::obey(model, s, a, checksummed, buf, at);
    one_ended(selected, supply, next)
}

// A line at its CR, given the supply of the selected slot: what it leaves, or an order for all, which the caller must
// carry out. The line and the supply come in parts, as the rack is never copied on its way through a call
// (docs/DECISIONS.md, 108).
pub fn end_one(
    u: Setup,
    kept: &[u8; 64],
    count: usize,
    spoiled: bool,
    selected: u8,
    s: Supply,
    buf: &mut [u8],
    at: usize,
) -> Ended
    ensures { EndsLine u (line_of kept.now count spoiled selected) s result
        buf.old at buf.new }
{
    let Heard { asks, checksummed } = serial::hear(kept, count, spoiled);
    match asks {
        Asks::Select(a) => select_slot(u, s, a, checksummed, buf, at),
        Asks::BadSelect(c) => say_code(u, selected, s, c, checksummed, buf, at),
        Asks::Everyone(order) => Ended {
            selected,
            supply: s,
            next: at,
            order: Some(order),
        },
        Asks::Nobody => one_ended(selected, s, at),
        Asks::One(a) => tell_one(u, selected, s, a, checksummed, buf, at),
        Asks::Error(c) => say_code(u, selected, s, c, checksummed, buf, at),
    }
}
