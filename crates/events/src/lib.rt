// Layer supply.
// What LINES, keys and the knob do to a supply.
#![tactic(auto)]

ghost use Rattle.std.specs.Prelude.{◌≡◌, ◌<◌, true, false, eqb};
ghost use Rattle.base.specs.Choice.{pick};
ghost use Rattle.supply.specs.With.{with_want, with_armed};
ghost use Rattle.supply.specs.Flt.{on_of, lines_clear};
ghost use Rattle.events.specs.Events.{any_rises, falls, lines_changed, turned_on, disarmed, pressed, turned};

use supply::{Key, Supply, Target};

// Whether any bit of LINES rises.
#[tactic(auto, unfolding(crate::specs::Events::any_rises))]
fn any_rises(old: u8, new: u8) -> bool
    ensures { result ≡ any_rises old new }
{
    new & !old != 0
}

// Whether bit k of LINES falls.
#[tactic(auto, unfolding(crate::specs::Events::falls, base::specs::Bits::bit_at))]
fn falls(k: u32, old: u8, new: u8) -> bool
    requires { k < 8 }
    ensures { result ≡ falls k old new }
{
    (old >> k) % 2 == 1 && (new >> k) % 2 != 1
}

// MODE after a change of LINES: if AC fell, locked out becomes remote.
fn unlocked(fell: bool, mode: u8) -> u8
    ensures { result ≡ pick fell (pick (eqb mode 2) 1 mode) mode }
{
    if fell && mode == 2 { 1 } else { mode }
}

// A new LINES byte. With && for & the law of the cases was tried and did not close.
#[tactic(auto, using(crate::proofs::Cases::lines_law))]
pub fn lines_changed(s: Supply, b: u8) -> Supply
    ensures { result ≡ lines_changed s b }
{
    let rose = any_rises(s.lines, b);
    // AC is bit 1 of LINES, and SO bit 5
    let ac = falls(1, s.lines, b);
    let so = falls(5, s.lines, b);
    Supply {
        lines: b,
        want: !(rose & !s.ast) & s.want,
        fold_trip: !ac & s.fold_trip,
        ovp_trip: !(so & s.ast) & (!ac & s.ovp_trip),
        mode: unlocked(ac, s.mode),
        ..s
    }
}

// Releases both trips and turns WANT on.
#[tactic(auto, unfolding(crate::specs::Events::turned_on))]
pub fn turn_on(s: Supply) -> Supply
    ensures { result ≡ turned_on s }
{
    Supply {
        fold_trip: false,
        ovp_trip: false,
        want: true,
        ..s
    }
}

// Turns ARMED off; if there was a FOLD trip, releases it and turns WANT off.
#[tactic(auto, using(crate::proofs::Cases::disarm_law), unfolding(crate::specs::Events::disarmed))]
pub fn disarm(s: Supply) -> Supply
    ensures { result ≡ disarmed s }
{
    Supply {
        armed: false,
        want: !s.fold_trip && s.want,
        fold_trip: false,
        ..s
    }
}

fn output_key(s: Supply) -> Supply
    ensures { result ≡ pick (on_of s) (with_want false s) (pick (lines_clear s) (turned_on s) s) }
{
    if s.is_on() {
        Supply { want: false, ..s }
    } else if s.lines_clear() {
        turn_on(s)
    } else {
        s
    }
}

fn fold_key(s: Supply) -> Supply
    ensures { result ≡ pick s.armed (disarmed s) (with_armed true s) }
{
    if s.armed {
        disarm(s)
    } else {
        Supply { armed: true, ..s }
    }
}

// A key: OUTPUT and FOLD work only in MODE 0, LOCAL only in MODE 1.
#[tactic(auto, unfolding(crate::specs::Events::pressed))]
pub fn press(s: Supply, k: Key) -> Supply
    ensures { result ≡ pressed s k }
{
    match k {
        Key::Output if s.mode == 0 => output_key(s),
        Key::Fold if s.mode == 0 => fold_key(s),
        Key::Local if s.mode == 1 => Supply { mode: 0, ..s },
        Key::Output | Key::Fold | Key::Local => s,
    }
}

// A knob step; it works only in MODE 0.
#[tactic(auto, unfolding(crate::specs::Events::turned))]
pub fn turn(model: u8, s: Supply, t: Target, raw: u32) -> Supply
    ensures { result ≡ turned model s t raw }
{
    if s.mode == 0 {
        settings::with_setting(s, t, settings::stepped_setting(model, s, t, raw))
    } else {
        s
    }
}
