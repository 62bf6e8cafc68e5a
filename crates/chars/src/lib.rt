// Layer rack.
// The characters of a line up to its CR, and the LF after it.
#![tactic(auto)]

ghost use Rattle.chars.specs.Chars.{CharsDo, FeedDoes};

// The line after the characters before a CR or the end of the bytes: how many are kept, whether it is spoiled, and the
// index of that CR or end.
#[derive(Clone, Copy)]
pub struct Advance {
    pub count: usize,
    pub spoiled: bool,
    pub next: usize,
}

const LINE_FEED: u8 = 10;

const CARRIAGE_RETURN: u8 = 13;

// Takes the characters of a line up to its CR or the end of the bytes.
pub fn take_chars(kept: &mut [u8; 64], n: usize, was: bool, p: &[u8]) -> Advance
    ensures { CharsDo kept.old n was p.now kept.new result }
{
    let mut count = n;
    let mut spoiled = was;
    for (i, b) in p.iter().enumerate() {
        if *b == CARRIAGE_RETURN {
            return Advance {
                count,
                spoiled,
                next: i,
            };
        }
        let taken = serial::take_char(kept, count, spoiled, *b);
        count = taken.count;
        spoiled = taken.spoiled;
    }
    Advance {
        count,
        spoiled,
        next: p.len(),
    }
}

// The index after an LF at index i, or i if there is none. Boards end their lines with CR LF, and an LF does nothing.
pub fn past_feed(p: &[u8], i: usize) -> usize
    ensures { FeedDoes p.now i result }
{
    match p.get(i) {
        Some(&LINE_FEED) => i + 1,
        _ => i,
    }
}
