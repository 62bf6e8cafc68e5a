// Layer reply.
// The text of a reply: OK, an error code or an answer, a checksum if asked for, and CR, placed into a lent buffer.
#![tactic(auto)]

ghost use Rattle.std.specs.Prelude.{◌≡◌, ◌-◌, ◌≤◌, ◌++◌, take, drop};
ghost use Rattle.base.specs.Put.{Put};
ghost use Rattle.prints.specs.Figure.{figure};
ghost use Rattle.hexadecimal.specs.Hex.{hex_pair};
ghost use Rattle.supply.specs.ErrorCodes.{code_told};
ghost use Rattle.texts.specs.Texts.{code_text, word_text, status_text, answer_text, ending, reply_of};

use supply::{ErrorCode, QueryAnswer, Status, Word};

// Places OK (0) or an error code.
fn put_code(buf: &mut [u8], at: usize, code: u8) -> usize
    ensures { Put buf.old at (code_text code) result buf.new }
{
    if code == 0 {
        base::put_text(buf, at, b"OK")
    } else {
        let p = base::put_byte(buf, at, hexadecimal::hex_digit(code / 16));
        let q = base::put_byte(buf, p, b'0');
        base::put_byte(buf, q, hexadecimal::hex_digit(code % 16))
    }
}

#[tactic(auto, unfolding(crate::specs::Texts::word_text))]
fn spelling(w: Word) -> &'static [u8]
    ensures { result.now ≡ word_text w }
{
    match w {
        Word::On => b"ON",
        Word::Off => b"OFF",
        Word::Loc => b"LOC",
        Word::Rem => b"REM",
        Word::Llo => b"LLO",
        Word::Cc => b"CC",
        Word::Cv => b"CV",
    }
}

// Places a label and a figure with k decimals.
fn put_labelled(buf: &mut [u8], at: usize, label: &[u8], k: usize, v: u64) -> usize
    ensures { Put buf.old at (label.now ++ figure k v) result buf.new }
{
    let p = base::put_text(buf, at, label);
    prints::put_figure(buf, p, k, v)
}

// Places a label and a register's byte.
fn put_register(buf: &mut [u8], at: usize, label: &[u8], byte: u8) -> usize
    ensures { Put buf.old at (label.now ++ hex_pair byte) result buf.new }
{
    let p = base::put_text(buf, at, label);
    hexadecimal::put_hex(buf, p, byte)
}

fn put_status(buf: &mut [u8], at: usize, t: Status) -> usize
    ensures { Put buf.old at (status_text t) result buf.new }
{
    let after_mv = put_labelled(buf, at, b"MV(", 4, t.volts);
    let after_pv = put_labelled(buf, after_mv, b"),PV(", 4, t.pv);
    let after_mc = put_labelled(buf, after_pv, b"),MC(", 3, t.amps);
    let after_pc = put_labelled(buf, after_mc, b"),PC(", 3, t.pc);
    let after_sr = put_register(buf, after_pc, b"),SR(", t.stat);
    let after_fr = put_register(buf, after_sr, b"),FR(", t.flt);
    base::put_byte(buf, after_fr, b')')
}

fn put_answer(buf: &mut [u8], at: usize, a: QueryAnswer) -> usize
    ensures { Put buf.old at (answer_text a) result buf.new }
{
    match a {
        QueryAnswer::Figure(k, v) => prints::put_figure(buf, at, k as usize, v),
        QueryAnswer::Says(w) => base::put_text(buf, at, spelling(w)),
        QueryAnswer::Hex(b) => hexadecimal::put_hex(buf, at, b),
        QueryAnswer::Tells(t) => put_status(buf, at, t),
    }
}

// Ends the reply that stands between two indices: a checksum, if asked for, and CR.
fn put_end(buf: &mut [u8], from: usize, at: usize, checksummed: bool) -> usize
    requires { from ≤ at }
    ensures { Put buf.old at
        (ending checksummed (take (at - from) (drop from buf.old))) result buf.new }
{
    if buf.len() <= at {
        return at;
    }
    if checksummed {
        let x = hexadecimal::checksum(&buf[from..at]);
        let p = base::put_byte(buf, at, b'$');
        let q = hexadecimal::put_hex(buf, p, x);
        base::put_byte(buf, q, 13)
    } else {
        base::put_byte(buf, at, 13)
    }
}

// Places a whole reply that is OK (0) or an error code.
pub fn put_code_reply(buf: &mut [u8], at: usize, code: u8, checksummed: bool) -> usize
    ensures { Put buf.old at (reply_of checksummed (code_text code)) result buf.new }
{
    let p = put_code(buf, at, code);
    put_end(buf, at, p, checksummed)
}

// Places a whole reply that is OK, or the error code of what was refused.
pub fn put_told_reply(
    buf: &mut [u8],
    at: usize,
    told: Result<(), ErrorCode>,
    checksummed: bool,
) -> usize
    ensures { Put buf.old at (reply_of checksummed (code_text (code_told told))) result buf.new }
{
    match told {
        Ok(()) => put_code_reply(buf, at, 0, checksummed),
        Err(e) => put_code_reply(buf, at, u8::from(e), checksummed),
    }
}

// Places a whole reply that is an answer.
pub fn put_answer_reply(buf: &mut [u8], at: usize, a: QueryAnswer, checksummed: bool) -> usize
    ensures { Put buf.old at (reply_of checksummed (answer_text a)) result buf.new }
{
    let p = put_answer(buf, at, a);
    put_end(buf, at, p, checksummed)
}
