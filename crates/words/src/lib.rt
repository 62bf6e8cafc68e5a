// Layer ground.
// Words in either case, held as numbers: a leading 1, then one byte for each character, in capitals.
#![tactic(auto)]

ghost use Rattle.std.specs.Prelude.{◌≡◌, ◌≤◌, length};
ghost use Rattle.words.specs.Words.{upper_all, pack, word_number};

// The characters of s, in capitals, as one number.
fn pack_word(s: &[u8]) -> u64
    requires { length s.now ≤ 5 }
    ensures { result ≡ pack (upper_all s.now) }
{
    let mut word = 1;
    for b in s {
        word = word * 256 + u64::from(b.to_ascii_uppercase());
    }
    word
}

// A word's number; 0 for a word of more than five characters, which no table has.
#[tactic(auto, unfolding(crate::specs::Words::word_number))]
pub fn word_number(s: &[u8]) -> u64
    ensures { result ≡ word_number s.now }
{
    if 5 < s.len() { 0 } else { pack_word(s) }
}
