// Layer ground.
// Bytes as hexadecimal digits, read and placed into a lent buffer, and the checksum of a line.
#![tactic(auto)]

ghost use Rattle.std.specs.Prelude.{◌≡◌, ◌<◌, Some, None};
ghost use Rattle.base.specs.Choice.{pick};
ghost use Rattle.base.specs.Put.{Put};
ghost use Rattle.figures.specs.Number.{number_in};
ghost use Rattle.hexadecimal.specs.Hex.{is_hex, hex_of, read_hex, hex_digit, hex_pair, checksum};

#[tactic(auto, unfolding(crate::specs::Hex::is_hex, crate::specs::Hex::hex_of))]
// The value of a hexadecimal digit in either case; none for any other character.
fn hex_value(b: u8) -> Option<u8>
    ensures { result ≡ pick (is_hex b) (Some (hex_of b)) None }
{
    match b {
        b'0'..=b'9' => Some(b - b'0'),
        b'A'..=b'F' => Some(b - b'A' + 10),
        b'a'..=b'f' => Some(b - b'a' + 10),
        _ => None,
    }
}

// The byte that two hexadecimal digits in either case spell.
#[tactic(auto, using(crate::proofs::Laws::hex_length))]
pub fn read_hex(s: &[u8]) -> Option<u8>
    ensures { result ≡ number_in (read_hex s.now) }
{
    let [high, low] = s else {
        return None;
    };
    Some(hex_value(*high)? * 16 + hex_value(*low)?)
}

// The checksum of s: the sum of its bytes modulo 256.
pub fn checksum(s: &[u8]) -> u8
    ensures { result ≡ checksum s.now }
{
    s.iter().fold(0, |t: u8, b| t.wrapping_add(*b))
}

// The capital hexadecimal digit for n.
pub fn hex_digit(n: u8) -> u8
    requires { n < 16 }
    ensures { result ≡ hex_digit n }
{
    if n < 10 { b'0' + n } else { b'A' + (n - 10) }
}

// Places b as two capital hexadecimal digits.
pub fn put_hex(buf: &mut [u8], at: usize, b: u8) -> usize
    ensures { Put buf.old at (hex_pair b) result buf.new }
{
    let p = base::put_byte(buf, at, hex_digit(b / 16));
    base::put_byte(buf, p, hex_digit(b % 16))
}
