// Layer supply.
// Why an order is refused: the first check that fails decides.
#![tactic(auto)]

ghost use Rattle.std.specs.Prelude.{◌≡◌, ◌||◌, ◌*◌, ltb};
ghost use Rattle.base.specs.Choice.{pick};
ghost use Rattle.models.specs.Models.{limits_of};
ghost use Rattle.supply.specs.State.{c05, e01, e02, e04, e06};
ghost use Rattle.supply.specs.ErrorCodes.{code_told};
ghost use Rattle.codes.specs.Codes.{above105, set_code, out_code, order_code};

use supply::{ErrorCode, Order, Supply, Target};

// The test for more than 105 % divides, so n is small enough for the products in the tests that follow.
fn pv_code(volts: u32, ovp: u32, uvl: u32, n: u64) -> Result<(), ErrorCode>
    ensures { code_told result ≡ pick (above105 volts n) c05
        (pick (ltb (20 * ovp) (21 * n)) e01 (pick (ltb (19 * n) (20 * uvl)) e02 0)) }
{
    if 21 * u64::from(volts) / 20 < n {
        Err(ErrorCode::C05)
    } else if 20 * u64::from(ovp) < 21 * n {
        Err(ErrorCode::E01)
    } else if 19 * n < 20 * u64::from(uvl) {
        Err(ErrorCode::E02)
    } else {
        Ok(())
    }
}

fn pc_code(amps: u32, n: u64) -> Result<(), ErrorCode>
    ensures { code_told result ≡ pick (above105 amps n) c05 0 }
{
    if 21 * u64::from(amps) / 20 < n {
        Err(ErrorCode::C05)
    } else {
        Ok(())
    }
}

fn ovp_code(least: u32, most: u32, pv: u32, n: u64) -> Result<(), ErrorCode>
    ensures { code_told result ≡ pick (ltb n least || ltb most n) c05 (pick (ltb (20 * n) (21 * pv)) e04 0) }
{
    if n < u64::from(least) || u64::from(most) < n {
        Err(ErrorCode::C05)
    } else if 20 * n < 21 * u64::from(pv) {
        Err(ErrorCode::E04)
    } else {
        Ok(())
    }
}

fn uvl_code(most: u32, pv: u32, n: u64) -> Result<(), ErrorCode>
    ensures { code_told result ≡ pick (ltb most n) c05 (pick (ltb (19 * pv) (20 * n)) e06 0) }
{
    if u64::from(most) < n {
        Err(ErrorCode::C05)
    } else if 19 * u64::from(pv) < 20 * n {
        Err(ErrorCode::E06)
    } else {
        Ok(())
    }
}

// The error code of PV n, PC n, OVP n or UVL n. Each arm looks up the limits for itself, so that the compiler
// reads only those the arm needs.
#[tactic(auto, unfolding(crate::specs::Codes::set_code))]
pub fn set_code(model: u8, s: Supply, t: Target, n: u64) -> Result<(), ErrorCode>
    ensures { code_told result ≡ set_code (limits_of model) s t n }
{
    match t {
        Target::Pv => {
            let l = models::limits_of(model);
            pv_code(l.volts, s.ovp, s.uvl, n)
        }
        Target::Pc => {
            let l = models::limits_of(model);
            pc_code(l.amps, n)
        }
        Target::Ovp => {
            let l = models::limits_of(model);
            ovp_code(l.ovp_least, l.ovp_most, s.pv, n)
        }
        Target::Uvl => {
            let l = models::limits_of(model);
            uvl_code(l.uvl_most, s.pv, n)
        }
    }
}

// The error code of an order. OUT 1 draws E07 unless LINES is 0.
#[tactic(auto, unfolding(crate::specs::Codes::order_code))]
pub fn order_code(model: u8, s: Supply, o: Order) -> Result<(), ErrorCode>
    ensures { code_told result ≡ order_code model s o }
{
    match o {
        Order::Set(t, n) => set_code(model, s, t, n),
        Order::Out(true) if !s.lines_clear() => Err(ErrorCode::E07),
        Order::Out(_)
        | Order::Ovm
        | Order::Fld(_)
        | Order::Ast(_)
        | Order::Rmt(_)
        | Order::Fena(_)
        | Order::Sena(_)
        | Order::Cls
        | Order::Rst => Ok(()),
    }
}
