// Layer ground.
// Figures on the serial line: digits and numbers with decimals, read from bytes.
#![tactic(auto)]

ghost use Rattle.std.specs.Prelude.{◌≡◌, ◌+◌, ◌-◌, ◌*◌, ◌/◌, ◌^◌, ◌<◌, ◌≤◌, length, drop};
ghost use Rattle.figures.specs.Digits.{digit_of, run_value, all_digits};
ghost use Rattle.figures.specs.Number.{first_at, whole_units, scaled_value, number_in, read_number};

use std::cmp::Ordering;

// The value of a digit character. Only bytes that are not digits need the remainder.
pub fn digit(b: u8) -> u64
    ensures { result ≡ digit_of b }
{
    match b {
        b'0'..=b'9' => u64::from(b - b'0'),
        _ => u64::from(b.saturating_sub(b'0') % 10),
    }
}

// The value of the first n characters of s, read as digits. It calls itself, as the papers ask.
pub fn run_value(s: &[u8], n: usize) -> u64
    requires { (n ≤ 12) × (n ≤ length s.now) }
    ensures { result ≡ run_value s.now n }
{
    if n == 0 {
        0
    } else {
        run_value(s, n - 1) * 10 + digit(s[n - 1])
    }
}

// Whether every character of s is a digit.
pub fn all_digits(s: &[u8]) -> bool
    ensures { result ≡ all_digits s.now }
{
    s.iter().all(|b| b.is_ascii_digit())
}

// The index of the first x in s, or the length of s if there is none.
pub fn first_at(s: &[u8], x: u8) -> usize
    ensures { (result ≡ first_at x s.now) × (result ≤ length s.now) }
{
    s.iter().position(|b| *b == x).unwrap_or(s.len())
}

// The bytes of s after index p; none if p is past the end.
pub fn part_after(s: &[u8], p: usize) -> &[u8]
    ensures { result.now ≡ drop (p + 1) s.now }
{
    base::part_from(s, p.saturating_add(1))
}

// 10 to the k-th power.
fn pow10(k: usize) -> u64
    requires { k ≤ 19 }
    ensures { result ≡ 10 ^ k }
{
    10u64.pow(k as u32)
}

// a in units of d, rounded to the nearest whole number; a tie goes to the even one. Only this function decides what
// happens to digits below a unit.
fn whole_units(a: u64, d: u64) -> u64
    requires { (a < 2 ^ 62) × (0 < d) × (d < 2 ^ 62) }
    ensures { result ≡ whole_units a d }
{
    let below = a / d;
    let twice = 2 * (a % d);
    match twice.cmp(&d) {
        Ordering::Less => below,
        Ordering::Equal => below + below % 2,
        Ordering::Greater => below + 1,
    }
}

// The value of digits w before a point and f after it, in units of the k-th decimal.
fn scaled_value(w: &[u8], f: &[u8], k: usize) -> u64
    requires { (length w.now + length f.now ≤ 12) × (k ≤ 6) }
    ensures { result ≡ scaled_value k w.now f.now }
{
    let m = w.len();
    let n = f.len();
    let scale = pow10(n);
    let all = run_value(w, m) * scale + run_value(f, n);
    whole_units(all * pow10(k), scale)
}

// The number that s spells, in units of the k-th decimal.
pub fn read_number(s: &[u8], k: usize) -> Option<u64>
    requires { k ≤ 6 }
    ensures { result ≡ number_in (read_number k s.now) }
{
    if 12 < s.len() {
        return None;
    }
    let p = first_at(s, b'.');
    let w = base::part_to(s, p);
    let f = part_after(s, p);
    if all_digits(w) && all_digits(f) && 0 < w.len() + f.len() {
        Some(scaled_value(w, f, k))
    } else {
        None
    }
}

// The part of v before the point, where v counts units of the k-th decimal. A 64-bit number has at most 20 digits.
pub fn whole_part(v: u64, k: usize) -> u64
    ensures { result ≡ v / 10 ^ k }
{
    if 19 < k { 0 } else { v / pow10(k) }
}
