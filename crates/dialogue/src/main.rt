// Layer checks.
// Talks to a supply line by line, and compares each reply with the expected one. Standard input has the lines and the
// replies; a second model of the serial line, which shares nothing with this one, writes them
// (tests/src/bin/dialogue.rs). Each line of the input is one item:
//   model N   a fresh supply of this model
//   > TEXT    a line at its CR
//   ! TEXT    a line at its CR that is spoiled
//   < TEXT    the reply to the line before, without its CR; nothing after < if none comes
// In the TEXT of a line, \xHH is the byte with these hexadecimal digits. Prints where the first wrong items are, then
// how many replies were expected and how many items were wrong.
#![tactic(auto)]

ghost use Rattle.std.specs.Prelude.{◌≡◌, ◌<◌, length, MatchOption};

use asks::Asks;
use command::Heard;
use reply::Obeyed;
use std::io;
use supply::{Act, ErrorCode, Supply};

// More bytes than the input has. The rest of a longer input would not be read, and the count would show it.
const INPUT: usize = 262_144;

// How many characters a line holds.
const LINE: usize = 64;

// Room for the bytes of a line, more than it may hold, so that a line that is too long is noticed.
const LINE_ROOM: usize = 80;

// Room for one reply.
const REPLY_ROOM: usize = 80;

// Models are numbered below this.
const MODELS: u64 = 12;

// How many wrong items are named.
const NAMED: u64 = 10;

// How far the talk has come: the supply with its model, the length of the last reply and whether one is still to be
// compared (a line that is too long leaves the length as it was), and how many items, replies and wrong items there were
// so far.
#[derive(Clone, Copy)]
struct Talk {
    model: u8,
    supply: Supply,
    length: usize,
    waits: bool,
    items: u64,
    replies: u64,
    wrong: u64,
}

// Counts an item as wrong and names its line, unless enough of them are named.
fn wrong_item(rt: &HostRuntime, t: Talk) -> Talk {
    if t.wrong < NAMED {
        let line = t.items;
        let _ = println!(rt; "wrong: line {line}");
    }
    Talk {
        wrong: t.wrong.saturating_add(1),
        ..t
    }
}

// If a reply still waits to be compared, the input lacks it, and the item is wrong.
fn nothing_waits(rt: &HostRuntime, t: Talk) -> Talk {
    if t.waits { wrong_item(rt, t) } else { t }
}

// The byte that the first character of a text stands for, and the text after it: \xHH, or a byte as it is.
fn first_character(text: &[u8]) -> Option<(u8, &[u8])>
    ensures { MatchOption result (length text.now ≡ 0) (λ c. length c.1.now < length text.now) }
{
    match text {
        [b'\\', _, high, low, rest @ ..] => {
            Some((hexadecimal::read_hex(&[*high, *low]).unwrap_or(0), rest))
        }
        [byte, rest @ ..] => Some((*byte, rest)),
        [] => None,
    }
}

// Writes the bytes that a text stands for, and returns the index after them.
fn put_bytes(buf: &mut [u8], text: &[u8]) -> usize {
    let mut at = 0;
    let mut rest = text;
    while let Some((byte, after)) = first_character(rest) {
        at = base::put_byte(buf, at, byte);
        rest = after;
    }
    at
}

// To a supply, a global is just another order, to which it does not reply.
fn obey_silently(model: u8, s: Supply, a: Act) -> Obeyed {
    Obeyed {
        supply: acts::perform(model, s, a).unwrap_or(s),
        next: 0,
    }
}

// OK or an error code, from a supply that does nothing.
fn reply_code(s: Supply, told: Result<(), ErrorCode>, checksummed: bool, buf: &mut [u8]) -> Obeyed {
    Obeyed {
        supply: s,
        next: texts::put_told_reply(buf, 0, told, checksummed),
    }
}

// The outcome of a line at its CR. The reply to an ADR comes from here; an ADR changes nothing.
fn hear_line(model: u8, s: Supply, line: &[u8], spoiled: bool, buf: &mut [u8]) -> Obeyed {
    let Heard { asks, checksummed } = command::read_line(line, spoiled);
    match asks {
        Asks::One(a) => reply::obey(model, s, a, checksummed, buf, 0),
        Asks::Select(_) => reply_code(s, Ok(()), checksummed, buf),
        Asks::BadSelect(code) | Asks::Error(code) => reply_code(s, Err(code), checksummed, buf),
        Asks::Everyone(o) => obey_silently(model, s, Act::Obey(o)),
        Asks::Nobody => Obeyed { supply: s, next: 0 },
    }
}

// Whether the first bytes of a buffer are a text and CR; if the text is empty, whether there is no reply.
fn is_reply(buf: &[u8], length: usize, text: &[u8]) -> bool {
    let said = base::part_to(buf, length);
    if text.is_empty() {
        return said.is_empty();
    }
    matches!(said, [reply @ .., 13] if check::same(reply, text))
}

fn take_model(rt: &HostRuntime, t: Talk, text: &[u8]) -> Talk {
    let t = Talk {
        waits: false,
        ..nothing_waits(rt, t)
    };
    match figures::read_number(text, 0) {
        Some(n) if n < MODELS => {
            let model = n as u8;
            Talk {
                model,
                supply: Supply::fresh(model),
                ..t
            }
        }
        _ => wrong_item(rt, t),
    }
}

fn take_line(
    rt: &HostRuntime,
    said: &mut [u8; REPLY_ROOM],
    t: Talk,
    text: &[u8],
    spoiled: bool,
) -> Talk {
    let mut line = [0u8; LINE_ROOM];
    let n = put_bytes(&mut line, text);
    let t = Talk {
        waits: true,
        ..nothing_waits(rt, t)
    };
    if LINE < n {
        return wrong_item(rt, t);
    }
    let Obeyed { supply, next } = hear_line(
        t.model,
        t.supply,
        base::part_to(&line, n),
        spoiled,
        said,
    );
    Talk {
        supply,
        length: next,
        ..t
    }
}

fn take_reply(rt: &HostRuntime, said: &[u8; REPLY_ROOM], t: Talk, text: &[u8]) -> Talk {
    let after = Talk {
        waits: false,
        replies: t.replies.saturating_add(1),
        ..t
    };
    if t.waits && is_reply(said, t.length, text) {
        after
    } else {
        wrong_item(rt, after)
    }
}

// An item is a word, followed by the text after the first space.
fn take_item(rt: &HostRuntime, said: &mut [u8; REPLY_ROOM], t: Talk, item: &[u8]) -> Talk {
    let p = figures::first_at(item, b' ');
    let word = base::part_to(item, p);
    let text = figures::part_after(item, p);
    let t = Talk {
        items: t.items.saturating_add(1),
        ..t
    };
    if check::same(word, b">") {
        take_line(rt, said, t, text, false)
    } else if check::same(word, b"!") {
        take_line(rt, said, t, text, true)
    } else if check::same(word, b"<") {
        take_reply(rt, said, t, text)
    } else if check::same(word, b"model") {
        take_model(rt, t, text)
    } else {
        wrong_item(rt, t)
    }
}

fn first_talk() -> Talk {
    Talk {
        model: 0,
        supply: Supply::fresh(0),
        length: 0,
        waits: false,
        items: 0,
        replies: 0,
        wrong: 0,
    }
}

fn take_items(rt: &HostRuntime, s: &[u8]) -> Talk {
    let mut said = [0u8; REPLY_ROOM];
    let mut t = first_talk();
    let mut rest = s;
    // The items of split would end with an empty one, after the end of the last line.
    while !rest.is_empty() {
        let p = figures::first_at(rest, b'\n');
        t = take_item(rt, &mut said, t, base::part_to(rest, p));
        rest = figures::part_after(rest, p);
    }
    nothing_waits(rt, t)
}

fn main(rt: HostRuntime) -> io::Result<()> {
    let mut input = [0u8; INPUT];
    let got = console::read_full(&rt, &mut input);
    let Talk { replies, wrong, .. } = take_items(&rt, base::part_to(&input, got.count));
    println!(rt; "{replies} replies, {wrong} wrong")
}
