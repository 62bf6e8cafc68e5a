// Layer supply.
// What an order does to a supply, or why it is refused.
#![tactic(auto)]

ghost use Rattle.std.specs.Prelude.{◌≡◌, ◌%◌, eqb};
ghost use Rattle.base.specs.Choice.{pick};
ghost use Rattle.supply.specs.ErrorCodes.{code_told, supply_left};
ghost use Rattle.settings.specs.Settings.{with_setting};
ghost use Rattle.codes.specs.Codes.{order_code};
ghost use Rattle.orders.specs.Orders.{remote, remote_by, out_done, fld_done, reset, ordered, after_order};

use supply::{ErrorCode, Order, Supply, Target};

// MODE after an accepted order that takes remote control.
fn remote_mode(mode: u8) -> u8
    ensures { result ≡ pick (eqb mode 0) 1 mode }
{
    if mode == 0 { 1 } else { mode }
}

#[tactic(auto, unfolding(crate::specs::Orders::remote))]
fn to_remote(s: Supply) -> Supply
    ensures { result ≡ remote s }
{
    Supply {
        mode: remote_mode(s.mode),
        ..s
    }
}

// Stores the low 32 bits of a figure, which are all of it if it is accepted; PV and PC also take remote control. One
// match does both, so that the record is written once.
#[tactic(auto, unfolding(crate::specs::Orders::remote, crate::specs::Orders::remote_by, settings::specs::Settings::with_setting))]
fn put_setting(s: Supply, t: Target, n: u64) -> Supply
    ensures { result ≡ remote_by t (with_setting t (n % 0x100000000) s) }
{
    let x = (n % 0x1_0000_0000) as u32;
    let mode = remote_mode(s.mode);
    match t {
        Target::Pv => Supply { pv: x, mode, ..s },
        Target::Pc => Supply { pc: x, mode, ..s },
        Target::Ovp => Supply { ovp: x, ..s },
        Target::Uvl => Supply { uvl: x, ..s },
    }
}

// Turns WANT on and releases the trips, or turns WANT off and keeps the trips.
#[tactic(auto, unfolding(crate::specs::Orders::out_done))]
fn put_out(s: Supply, on: bool) -> Supply
    ensures { result ≡ out_done on s }
{
    if on {
        to_remote(events::turn_on(s))
    } else {
        to_remote(Supply { want: false, ..s })
    }
}

#[tactic(auto, unfolding(crate::specs::Orders::fld_done))]
fn put_fld(s: Supply, on: bool) -> Supply
    ensures { result ≡ fld_done on s }
{
    if on {
        Supply { armed: true, ..s }
    } else if s.armed {
        events::disarm(s)
    } else {
        s
    }
}

#[tactic(auto, unfolding(crate::specs::Orders::reset))]
fn reset_supply(model: u8, s: Supply) -> Supply
    ensures { result ≡ reset model s }
{
    Supply {
        mode: 1,
        lines: s.lines,
        fena: s.fena,
        sena: s.sena,
        volt_count: s.volt_count,
        amp_count: s.amp_count,
        ..Supply::fresh(model)
    }
}

// What an accepted order does; CLS takes effect as the event closes. `order_done` gives figures to `set_done`, so their
// arm only completes the match.
#[tactic(auto, using(crate::proofs::Accepted::stored), unfolding(crate::specs::Orders::ordered))]
fn carried_out(model: u8, s: Supply, o: Order) -> Supply
    requires { order_code model s o ≡ 0 }
    ensures { result ≡ ordered model s o }
{
    match o {
        Order::Set(t, n) => put_setting(s, t, n),
        Order::Ovm => {
            let ovp = models::limits_of(model).ovp_most;
            Supply { ovp, ..s }
        }
        Order::Out(on) => put_out(s, on),
        Order::Fld(on) => put_fld(s, on),
        Order::Ast(ast) => Supply { ast, ..s },
        Order::Rmt(mode) => Supply { mode, ..s },
        Order::Fena(fena) => Supply { fena, ..s },
        Order::Sena(b) => Supply {
            sena: b & 0x8F,
            ..s
        },
        Order::Cls => s,
        Order::Rst => reset_supply(model, s),
    }
}

// A figure for a setting: the supply after it, or why it is refused.
#[tactic(auto, using(crate::proofs::Accepted::taken, crate::proofs::Accepted::refused), unfolding(codes::specs::Codes::order_code))]
pub fn set_done(model: u8, s: Supply, t: Target, n: u64) -> Result<Supply, ErrorCode>
    ensures { (code_told result ≡ order_code model s (Order.Set t n))
        × (supply_left s result ≡ after_order model s (Order.Set t n)) }
{
    codes::set_code(model, s, t, n)?;
    Ok(put_setting(s, t, n))
}

// An order: the supply after it, or why it is refused. It covers figures too, though `acts` gives those to `set_done`
// itself.
#[tactic(auto, using(crate::proofs::Accepted::refused, crate::proofs::Accepted::accepted))]
pub fn order_done(model: u8, s: Supply, o: Order) -> Result<Supply, ErrorCode>
    ensures { (code_told result ≡ order_code model s o)
        × (supply_left s result ≡ after_order model s o) }
{
    if let Order::Set(t, n) = o {
        return set_done(model, s, t, n);
    }
    codes::order_code(model, s, o)?;
    Ok(carried_out(model, s, o))
}
