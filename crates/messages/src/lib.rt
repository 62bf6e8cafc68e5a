// Layer calls.
// The service messages after a field. Most fields change one slot, so only what that one held is kept; the registers of
// all slots are kept once a field is about to change another.
#![tactic(auto)]

ghost use Rattle.std.specs.Prelude.{◌≡◌, false, ◌||◌, [], ◌<◌, eqb, length};
ghost use Rattle.base.specs.Choice.{pick};
ghost use Rattle.base.specs.Put.{Put};
ghost use Rattle.wire.specs.Rack.{message};
ghost use Rattle.messages.specs.Messages.{sends_by, messages_by, unchanged, found_at, leaves_slot, Recorded};

use supply::Supply;

// What a field keeps of what it found: one slot and the registers that it had, and whether others have changed.
#[derive(Clone, Copy)]
pub struct Found {
    pub slot: usize,
    pub feve: u8,
    pub seve: u8,
    pub many: bool,
}

// Places the message of an address.
fn put_message(buf: &mut [u8], at: usize, a: u8) -> usize
    ensures { Put buf.old at (message a) result buf.new }
{
    let text = [b'!', 48 + a / 10, 48 + a % 10, 13];
    base::put_text(buf, at, &text)
}

// Places the message of a supply, if either of its registers has risen from 0.
pub fn ring(buf: &mut [u8], at: usize, a: u8, feve: u8, seve: u8, s: Supply) -> usize
    ensures { Put buf.old at (sends_by a feve seve s) result buf.new }
{
    let fault = (feve == 0) & (s.feve != 0);
    let status = (seve == 0) & (s.seve != 0);
    if fault | status {
        put_message(buf, at, a)
    } else {
        at
    }
}

// Before any field: a placeholder, of which nothing is made.
pub fn none_found() -> Found
    ensures { result ≡ record { slot = 0; feve = 0; seve = 0; many = false } }
{
    Found {
        slot: 0,
        feve: 0,
        seve: 0,
        many: false,
    }
}

// What a field keeps when its next bytes come for slot k, whose supply is s; `was` is the supply in the slot kept so far.
// A field begins with slot k, and it may take slot k in place of one whose registers are still as it found them: that
// one has nothing to send. So a field that only selects another slot, or only asks, keeps one slot throughout.
pub fn found_by(f: Found, left: usize, was: Supply, k: usize, s: Supply) -> Found
    ensures { (result ≡ pick (eqb left 0 || unchanged f was) (found_at k s) f)
        × (k < 31 → f.slot < 31 → result.slot < 31) }
{
    let same = !f.many & (was.feve == f.feve) & (was.seve == f.seve);
    if (left == 0) | same {
        Found {
            slot: k,
            feve: s.feve,
            seve: s.seve,
            many: false,
        }
    } else {
        f
    }
}

// Whether the field leaves the slot that it has kept: it is about to change another one, or all.
pub fn leaves(f: Found, k: usize, all: bool) -> bool
    ensures { result ≡ leaves_slot f k all }
{
    !f.many & (all | (k != f.slot))
}

// Keeps the registers of all slots as the field found them: so far it has changed only the slot that it has kept.
pub fn keep_registers(kept: &mut [u8; 62], slots: [Supply; 31], f: Found)
    requires { f.slot < 31 }
    ensures { (length kept.new ≡ length kept.old)
        × (length kept.old ≡ 62 → Recorded kept.new f slots) }
{
    for i in 0..31 {
        kept[i] = slots[i].feve;
        kept[31 + i] = slots[i].seve;
    }
    let slot = f.slot;
    kept[slot] = f.feve;
    kept[31 + slot] = f.seve;
}

// Places the message of a field that has changed one slot, whose supply is s, once no bytes of it are left.
pub fn ring_one(buf: &mut [u8], at: usize, f: Found, s: Supply, left: usize) -> usize
    requires { f.slot < 31 }
    ensures { Put buf.old at (pick (eqb left 0) (sends_by f.slot f.feve f.seve s) [])
        result buf.new }
{
    if left == 0 {
        ring(buf, at, f.slot as u8, f.feve, f.seve, s)
    } else {
        at
    }
}

// Places the messages of a field that has changed more, lowest address first, once no bytes of it are left.
pub fn ring_all(
    buf: &mut [u8],
    at: usize,
    kept: &[u8; 62],
    slots: [Supply; 31],
    left: usize,
) -> usize
    ensures { Put buf.old at (pick (eqb left 0) (messages_by 31 kept.now slots) [])
        result buf.new }
{
    let mut next = at;
    if left != 0 {
        return next;
    }
    for i in 0..31 {
        next = ring(buf, next, i as u8, kept[i], kept[31 + i], slots[i]);
    }
    next
}
