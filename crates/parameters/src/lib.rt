// Layer line.
// The parameter of a line: absent, malformed, or a value of the kind that its word takes.
#![tactic(auto)]

ghost use Rattle.std.specs.Prelude.{◌≡◌, ◌<◌, ◌≤◌, IfOk};
ghost use Rattle.figures.specs.Number.{number_in};
ghost use Rattle.parameters.specs.Parameters.{bare, number, switch, hex, address, read_address, read_switch, parameter_of};
ghost use Rattle.parameters.specs.Told.{required, parameter_told, bare_told};

use supply::ErrorCode;

// The last address of a rack.
const LAST: u8 = 30;

// A required parameter: C02 if it is empty, C03 if it is no number.
fn need<N: Copy>(n: Option<N>, x: &[u8]) -> Result<N, ErrorCode>
    ensures { result ≡ required n x.now }
{
    if x.is_empty() {
        Err(ErrorCode::C02)
    } else {
        n.ok_or(ErrorCode::C03)
    }
}

// One digit from 0 to most.
fn read_switch(x: &[u8], most: u8) -> Option<u8>
    ensures { result ≡ number_in (read_switch most x.now) }
{
    let [b] = x else {
        return None;
    };
    let digit = b.checked_sub(b'0')?;
    if most < digit {
        return None;
    }
    Some(digit)
}

// At most two digits.
#[tactic(auto, using(crate::proofs::Bounds::address_lt))]
fn read_address(x: &[u8]) -> Option<u8>
    ensures { result ≡ number_in (read_address x.now) }
{
    let n = x.len();
    if n < 3 && figures::all_digits(x) {
        Some(figures::run_value(x, n) as u8)
    } else {
        None
    }
}

// The parameter of a word that takes none.
#[tactic(auto, unfolding(crate::specs::Parameters::parameter_of))]
pub fn bare_parameter(x: &[u8]) -> Result<(), ErrorCode>
    ensures { bare_told result ≡ parameter_of bare x.now }
{
    if x.is_empty() {
        Ok(())
    } else {
        Err(ErrorCode::C03)
    }
}

// A required number with k decimals.
#[tactic(auto, unfolding(crate::specs::Parameters::parameter_of, crate::specs::Parameters::read_as), using(crate::proofs::Bounds::required_told))]
pub fn number_parameter(x: &[u8], k: usize) -> Result<u64, ErrorCode>
    requires { k ≤ 6 }
    ensures { parameter_told result ≡ parameter_of (number k) x.now }
{
    need(figures::read_number(x, k), x)
}

// A required digit from 0 to most.
#[tactic(auto, unfolding(crate::specs::Parameters::parameter_of, crate::specs::Parameters::read_as), using(crate::proofs::Bounds::required_told))]
pub fn switch_parameter(x: &[u8], most: u8) -> Result<u8, ErrorCode>
    ensures { parameter_told result ≡ parameter_of (switch most) x.now }
{
    need(read_switch(x, most), x)
}

// Two hexadecimal digits, required.
#[tactic(auto, unfolding(crate::specs::Parameters::parameter_of, crate::specs::Parameters::read_as), using(crate::proofs::Bounds::required_told))]
pub fn hex_parameter(x: &[u8]) -> Result<u8, ErrorCode>
    ensures { parameter_told result ≡ parameter_of hex x.now }
{
    need(hexadecimal::read_hex(x), x)
}

// A required address; above 30 it draws C05.
#[tactic(auto, unfolding(crate::specs::Parameters::parameter_of, crate::specs::Parameters::read_as), using(crate::proofs::Bounds::address_refused, crate::proofs::Bounds::address_above, crate::proofs::Bounds::address_inside))]
pub fn address_parameter(x: &[u8]) -> Result<u8, ErrorCode>
    ensures told { parameter_told result ≡ parameter_of address x.now }
    ensures inside { IfOk result (λ a. a < 31) }
{
    let address = need(read_address(x), x)?;
    if LAST < address {
        Err(ErrorCode::C05)
    } else {
        Ok(address)
    }
}
