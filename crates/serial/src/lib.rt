// Layer rack.
// The serial line in code: its kept characters byte by byte, what a line asks at its CR, and the model at an address.
#![tactic(auto)]

ghost use Rattle.std.specs.Prelude.{◌≡◌, take};
ghost use Rattle.wire.specs.Wire.{fresh_wire, fitted};
ghost use Rattle.command.specs.Lines.{heard_of};
ghost use Rattle.command.specs.Told.{heard_told};
ghost use Rattle.serial.specs.View.{fitted_model, wire_of, Short, CharDoes};

use command::Heard;
use wire::Setup;

// The line: the kept characters and their count, whether it is spoiled, and the selected slot or NOBODY.
// It is laid out for C, so the count stands beside the array.
#[repr(C)]
#[derive(Clone, Copy)]
pub struct Line {
    pub kept: [u8; 64],
    pub count: usize,
    pub spoiled: bool,
    pub selected: u8,
}

// Where nobody is selected: no slot has this number.
pub const NOBODY: u8 = 31;

// The model number of a slot without a supply.
const EMPTY: u8 = 255;

const BACKSPACE: u8 = 8;

const LINE_FEED: u8 = 10;

// Nothing kept, nobody selected.
pub fn fresh_line() -> Line
    ensures { (wire_of result ≡ fresh_wire) × (Short result) }
{
    Line {
        kept: [0; 64],
        count: 0,
        spoiled: false,
        selected: NOBODY,
    }
}

// The line after a character, apart from the array: how many characters are kept, and whether the line is spoiled.
#[derive(Clone, Copy)]
pub struct Counted {
    pub count: usize,
    pub spoiled: bool,
}

// Takes a serial byte other than CR. It gets the line in parts, which its callers hold as values of their own
// (docs/DECISIONS.md, 108).
pub fn take_char(kept: &mut [u8; 64], count: usize, spoiled: bool, b: u8) -> Counted
    ensures { CharDoes kept.old count spoiled b kept.new result }
{
    match b {
        LINE_FEED => Counted { count, spoiled },
        BACKSPACE => Counted {
            count: count.saturating_sub(1),
            spoiled,
        },
        _ if count < 64 => {
            kept[count] = b;
            Counted {
                count: count + 1,
                spoiled,
            }
        }
        _ => Counted {
            count,
            spoiled: true,
        },
    }
}

// What the line asks at its CR; it is in parts here too.
pub fn hear(kept: &[u8; 64], count: usize, spoiled: bool) -> Heard
    ensures { heard_told result ≡ heard_of (take count kept.now) spoiled }
{
    command::read_line(base::part_to(kept, count), spoiled)
}

// The model of the supply at an address, if there is one.
pub fn model_at(u: Setup, a: u8) -> Option<u8>
    ensures { result ≡ fitted_model u a }
{
    u.models
        .get(usize::from(a))
        .copied()
        .filter(|model| *model != EMPTY)
}

// Whether there is a supply at the address.
pub fn has_supply(u: Setup, a: u8) -> bool
    ensures { result ≡ fitted u a }
{
    model_at(u, a).is_some()
}
