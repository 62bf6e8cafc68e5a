// Layer ground.
// A program's buffers: replies as they are printed, and the unused rest of the input.
#![tactic(auto)]

ghost use Rattle.std.specs.Prelude.{◌≡◌};
ghost use Rattle.base.specs.Lists.{each_to};
ghost use Rattle.buffers.specs.Printed.{printed};
ghost use Rattle.buffers.specs.Kept.{Kept};

const CR: u8 = b'\r';

fn printed_byte(ending: u8, b: u8) -> u8
    ensures { result ≡ printed ending b }
{
    if b == CR { ending } else { b }
}

// Replaces each CR among the first n bytes with the line ending.
pub fn end_lines(out: &mut [u8], n: usize, ending: u8)
    ensures { out.new ≡ each_to (λ i b. printed ending b) n out.old }
{
    if ending == CR {
        return;
    }
    let end = n.min(out.len());
    for b in &mut out[..end] {
        *b = printed_byte(ending, *b);
    }
}

// Of the first n bytes, moves those from index used on to the start, and returns how many there are.
pub fn keep_rest(room: &mut [u8], used: usize, n: usize) -> usize
    ensures { Kept room.old used n result room.new }
{
    let end = n.min(room.len());
    let start = used.min(end);
    room.copy_within(start..end, 0);
    end - start
}
