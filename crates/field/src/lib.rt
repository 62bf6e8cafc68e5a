// Layer rack.
// A field's tag, length and payload, or its refusal. Nothing here knows the rack.
#![tactic(auto)]

ghost use Rattle.std.specs.Prelude.{◌≡◌, ◌+◌, ◌<◌, ◌≤◌, length, get_or, take, drop};
ghost use Rattle.field.specs.Fields.{pair_at, tag_of, length_of, length_fits, header_code};
ghost use Rattle.field.specs.Refusals.{refusal_number, refusal_code, header_told, header_in};

// Why a field or a fitting list is refused: refusals 1 to 8, in order.
#[derive(Clone, Copy, Debug, PartialEq, Eq)]
pub enum Refusal {
    ShortBuffer,
    ShortHeader,
    UnknownTag,
    WrongLength,
    ShortPayload,
    NoSupply,
    ValueNotListed,
    BadList,
}

// The number of a refusal.
impl From<Refusal> for u8 {
    fn from(refusal: Refusal) -> u8
        ensures { result ≡ refusal_number refusal }
    {
        match refusal {
            Refusal::ShortBuffer => 1,
            Refusal::ShortHeader => 2,
            Refusal::UnknownTag => 3,
            Refusal::WrongLength => 4,
            Refusal::ShortPayload => 5,
            Refusal::NoSupply => 6,
            Refusal::ValueNotListed => 7,
            Refusal::BadList => 8,
        }
    }
}

// A refusal as a number, or 0 for none.
pub fn refusal_code(refusal: Option<Refusal>) -> u8
    ensures { result ≡ refusal_code refusal }
{
    match refusal {
        None => 0,
        Some(refusal) => u8::from(refusal),
    }
}

// The header of a field: its tag and the length of its payload. A byte that is not there reads as 0.
#[derive(Clone, Copy)]
pub struct Header {
    pub tag: u8,
    pub length: usize,
}

// A header that is refused: why, and the header all the same.
#[derive(Clone, Copy)]
pub struct BadHeader {
    pub refusal: Refusal,
    pub header: Header,
}

// What is told of a header that is refused, where only the refusal counts.
impl From<BadHeader> for Refusal {
    ghost from_gives = { λ bad refusal. refusal ≡ bad.refusal };

    fn from(bad: BadHeader) -> Refusal {
        bad.refusal
    }
}

// The byte at index i, or 0 past the end.
pub fn byte_at(s: &[u8], i: usize) -> u8
    ensures { result ≡ get_or s.now i 0 }
{
    s.get(i).copied().unwrap_or(0)
}

// Two bytes as one number, high byte first.
pub fn pair_at(s: &[u8], i: usize) -> u16
    requires { i < 65536 }
    ensures { result ≡ pair_at s.now i }
{
    u16::from(byte_at(s, i)) * 256 + u16::from(byte_at(s, i + 1))
}

// Whether this length is allowed for the tag.
#[tactic(auto, unfolding(crate::specs::Fields::length_fits))]
fn length_fits(tag: u8, n: usize) -> bool
    ensures { result ≡ length_fits tag n }
{
    match tag {
        1 => (1..=16).contains(&n),
        3 => n == 6,
        5 => n == 5,
        _ => n == 2,
    }
}

// The header of the first field of the lent bytes, with refusal 2 to 5 beside it where the bytes draw one: the first of
// them that they draw.
#[tactic(auto, unfolding(crate::specs::Fields::header_code))]
pub fn read_header(b: &[u8]) -> Result<Header, BadHeader>
    ensures code { header_told result ≡ header_code b.now }
    ensures header { ((header_in result).tag ≡ tag_of b.now) × ((header_in result).length ≡ length_of b.now) }
{
    let n = b.len();
    let tag = byte_at(b, 0);
    let length = usize::from(pair_at(b, 1));
    let header = Header { tag, length };
    let refusal = if n < 3 {
        Refusal::ShortHeader
    } else if !(1..=5).contains(&tag) {
        Refusal::UnknownTag
    } else if !length_fits(tag, length) {
        Refusal::WrongLength
    } else if n < 3 + length {
        Refusal::ShortPayload
    } else {
        return Ok(header);
    };
    Err(BadHeader { refusal, header })
}

// The payload of a complete field.
pub fn payload(b: &[u8], n: usize) -> &[u8]
    requires { 3 + n ≤ length b.now }
    ensures { result.now ≡ take n (drop 3 b.now) }
{
    &b[3..3 + n]
}
