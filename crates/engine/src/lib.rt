// Layer calls.
// Works lent bytes field after field, piece by piece, and changes the slots in place.
#![tactic(auto)]

ghost use Rattle.std.specs.Prelude.{◌≤◌, ◌+◌, length};
ghost use Rattle.plain.specs.Plain.{least_reply};
ghost use Rattle.slots.specs.View.{Able};
ghost use Rattle.engine.specs.Engine.{RefusedFirst, WorkDoes};

use field::Refusal;
use serial::Line;
use slots::Rack;

// Fields worked: the rack after them, the bytes used, the index after their replies and messages, and the refusal of the
// next field, if one ended them.
#[derive(Clone, Copy)]
pub struct Worked {
    pub rack: Rack,
    pub used: usize,
    pub next: usize,
    pub refusal: Option<Refusal>,
}

// Works fields one after another until one is refused or what they say reaches the index `full` of the buffer. It works
// at least one field, so with `full` at 0 it works exactly one. The byte `ending` ends each line of what they say.
pub fn work(r: Rack, s: &[u8], out: &mut [u8], full: usize, ending: u8) -> Worked
    ensures refuses { RefusedFirst r s.now out.old result out.new }
    ensures works { Able r → full + least_reply ≤ length out.old
        → WorkDoes r s.now out.old full ending result out.new }
{
    let mut rack = r;
    let line = r.line;
    let mut kept = line.kept;
    let mut count = line.count;
    let mut spoiled = line.spoiled;
    let mut selected = line.selected;
    let mut used = 0;
    let mut next = 0;
    let mut left = 0;
    let mut refusal = None;
    let mut going = true;
    let mut registers = [0u8; 62];
    let mut found = messages::none_found();
    while going {
        let rest = base::part_from(s, used);
        let setup = rack.setup;
        if let Some(model) = addressed::sample_model(setup, rest, left) {
            let k = field::byte_at(rest, 3) as usize;
            let before = rack.slots[k];
            let supply = addressed::take_sample(model, before, rest);
            rack.slots[k] = supply;
            used += 8;
            next = messages::ring(out, next, k as u8, before.feve, before.seve, supply);
            going = next < full;
        } else if pieces::is_serial(rest, left) {
            let k = addressed::slot_or_first(setup, selected);
            let slot = found.slot;
            found = messages::found_by(found, left, rack.slots[slot], k, rack.slots[k]);
            let piece = pieces::take_serial(
                setup,
                &mut kept,
                count,
                spoiled,
                selected,
                rack.slots[k],
                rest,
                left,
                out,
                next,
            );
            match piece {
                Ok(p) => {
                    if messages::leaves(found, k, p.order.is_some()) {
                        messages::keep_registers(&mut registers, rack.slots, found);
                        found.many = true;
                    }
                    count = p.count;
                    spoiled = p.spoiled;
                    selected = p.selected;
                    left = p.left;
                    used += p.used;
                    match p.order {
                        Some(order) => rack.slots = globals::order_all(setup, rack.slots, order),
                        None => rack.slots[k] = p.supply,
                    }
                    next = p.next;
                    if found.many {
                        next = messages::ring_all(out, next, &registers, rack.slots, left);
                    } else {
                        let only = found.slot;
                        next = messages::ring_one(out, next, found, rack.slots[only], left);
                    }
                    going = (0 < left) | (next < full);
                }
                Err(refused) => {
                    refusal = Some(refused);
                    going = false;
                }
            }
        } else if rest.len() < 3 {
            refusal = Some(Refusal::ShortHeader);
            going = false;
        } else {
            let k = addressed::slot_or_first(setup, field::byte_at(rest, 3));
            let was = rack.slots[k];
            match addressed::take_event(setup, was, rest) {
                Ok(event) => {
                    rack.slots[k] = event.supply;
                    used += event.used;
                    next = messages::ring(out, next, k as u8, was.feve, was.seve, event.supply);
                    going = next < full;
                }
                Err(e) => {
                    refusal = Some(e);
                    going = false;
                }
            }
        }
    }
    buffers::end_lines(out, next, ending);
    let line = Line {
        kept,
        count,
        spoiled,
        selected,
    };
    rack.line = line;
    Worked {
        rack,
        used,
        next,
        refusal,
    }
}
