// Layer line.
// One line of text: its checksum, the rest of the line, and what that asks, from the line alone.
#![tactic(auto)]

ghost use Rattle.std.specs.Prelude.{◌≡◌, ◌≤◌, length};
ghost use Rattle.asks.specs.Told.{asks_told};
ghost use Rattle.command.specs.Lines.{heard_as, right_checksum, heard_of};
ghost use Rattle.command.specs.Told.{heard_told};

use asks::Asks;
use supply::ErrorCode;

// What a line asks, and whether it had a right checksum; if it had, its reply carries one too.
#[derive(Clone, Copy)]
pub struct Heard {
    pub asks: Asks,
    pub checksummed: bool,
}

fn heard_as(asks: Asks, checksummed: bool) -> Heard
    ensures { heard_told result ≡ heard_as (asks_told asks) checksummed }
{
    Heard { asks, checksummed }
}

// Whether the last two characters are the checksum of everything before the $ in front of them.
#[tactic(auto, unfolding(crate::specs::Lines::right_checksum))]
fn right_checksum(s: &[u8]) -> bool
    requires { 3 ≤ length s.now }
    ensures { result ≡ right_checksum s.now }
{
    let dollar = s.len() - 3;
    hexadecimal::read_hex(&s[dollar + 1..]) == Some(hexadecimal::checksum(&s[..dollar]))
}

// What a line asks, read at its CR.
#[tactic(auto, unfolding(crate::specs::Lines::heard_of))]
pub fn read_line(s: &[u8], spoiled: bool) -> Heard
    ensures { heard_told result ≡ heard_of s.now spoiled }
{
    if spoiled {
        return heard_as(Asks::Error(ErrorCode::C01), false);
    }
    let n = s.len();
    if n < 3 || s[n - 3] != b'$' {
        return heard_as(asks::asks_of(s), false);
    }
    if right_checksum(s) {
        heard_as(asks::asks_of(&s[..n - 3]), true)
    } else {
        heard_as(Asks::Error(ErrorCode::C04), false)
    }
}
