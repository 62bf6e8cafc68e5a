// Layer calls.
// A piece of a field that consists of serial bytes: up to the end of a line or of their field. It needs only the line
// and one supply, not the rack.
#![tactic(auto)]

ghost use Rattle.std.specs.Prelude.{◌≡◌, true, ◌≤◌, length};
ghost use Rattle.serial.specs.View.{line_of};
ghost use Rattle.addressed.specs.Pieces.{is_serial, PieceDoes};
ghost use Rattle.pieces.specs.Lines.{after_piece, piece_told, LineDoes};

use field::Refusal;
use supply::{Order, Supply};
use wire::Setup;

// What a piece leaves: how many characters the line keeps, whether it is spoiled and which slot is selected; the supply
// of the slot that the piece reaches; the index after its reply, how many bytes it used, how many bytes of its field
// are left, and possibly an order for all.
#[derive(Clone, Copy)]
pub struct Piece {
    pub count: usize,
    pub spoiled: bool,
    pub selected: u8,
    pub supply: Supply,
    pub next: usize,
    pub used: usize,
    pub left: usize,
    pub order: Option<Order>,
}

// Serial bytes up to the end of a line or of their field; `head` bytes come before them.
fn take_line(
    u: Setup,
    kept: &mut [u8; 64],
    count: usize,
    spoiled: bool,
    selected: u8,
    s: Supply,
    p: &[u8],
    head: usize,
    buf: &mut [u8],
    at: usize,
) -> Piece
    requires { head ≤ 3 }
    ensures { (length kept.new ≡ length kept.old)
        × LineDoes u (line_of kept.old count spoiled selected) s p.now head
        (after_piece kept.new result) buf.old at buf.new }
{
    let t = chars::take_chars(kept, count, spoiled, p);
    let n = t.next;
    let size = p.len();
    if n == size {
        return Piece {
            count: t.count,
            spoiled: t.spoiled,
            selected,
            supply: s,
            next: at,
            used: head + n,
            left: 0,
            order: None,
        };
    }
    let taken = chars::past_feed(p, n + 1);
    let e = slots::end_one(u, kept, t.count, t.spoiled, selected, s, buf, at);
    Piece {
        count: 0,
        spoiled: false,
        selected: e.selected,
        supply: e.supply,
        next: e.next,
        used: head + taken,
        left: size - taken,
        order: e.order,
    }
}

// Serial bytes of a field with `left` bytes still to come, or of a new field, given the supply of the selected slot.
pub fn take_serial(
    u: Setup,
    kept: &mut [u8; 64],
    count: usize,
    spoiled: bool,
    selected: u8,
    s: Supply,
    b: &[u8],
    left: usize,
    buf: &mut [u8],
    at: usize,
) -> Result<Piece, Refusal>
    ensures { (length kept.new ≡ length kept.old)
        × (is_serial b.now left ≡ true → left ≤ length b.now
        → PieceDoes u (line_of kept.old count spoiled selected) s selected b.now left
        (piece_told (line_of kept.new count spoiled selected) s at result) buf.old at buf.new) }
{
    if 0 < left {
        let part = base::part_to(b, left);
        return Ok(take_line(u, kept, count, spoiled, selected, s, part, 0, buf, at));
    }
    let header = field::read_header(b)?;
    let part = field::payload(b, header.length);
    Ok(take_line(u, kept, count, spoiled, selected, s, part, 3, buf, at))
}

// Whether the next piece consists of serial bytes.
pub fn is_serial(b: &[u8], left: usize) -> bool
    ensures { result ≡ is_serial b.now left }
{
    (0 < left) | (field::byte_at(b, 0) == 1)
}
