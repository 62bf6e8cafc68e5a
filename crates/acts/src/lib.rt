// Layer supply.
// The acts of a supply, in three stages: what the act does, what FEVE and SEVE gain, and how the act closes. Every act
// that is not refused closes with `forget_cv`.
#![tactic(auto)]

ghost use Rattle.std.specs.Prelude.{◌≡◌};
ghost use Rattle.supply.specs.ErrorCodes.{code_told, supply_left};
ghost use Rattle.supply.specs.Memory.{cv_forgotten};
ghost use Rattle.supply.specs.Registers.{settled};
ghost use Rattle.codes.specs.Codes.{order_code};
ghost use Rattle.acts.specs.Acts.{code_of, after_query, clearing_order, cleared, performed};

use supply::{Act, ErrorCode, Order, Query, Supply, Target};

// Sets FEVE and SEVE to 0 if the test is true.
fn clear_registers(s: Supply, test: bool) -> Supply
    ensures { result ≡ cleared test s }
{
    if test {
        Supply {
            feve: 0,
            seve: 0,
            ..s
        }
    } else {
        s
    }
}

// What a query itself changes: FEVE? and SEVE? clear their registers.
#[tactic(auto, using(crate::proofs::Clearing::query_keeps), unfolding(crate::specs::Acts::after_query))]
fn after_query(s: Supply, q: Query) -> Supply
    ensures { result ≡ after_query q s }
{
    match q {
        Query::Feve => Supply { feve: 0, ..s },
        Query::Seve => Supply { seve: 0, ..s },
        _ => s,
    }
}

#[tactic(auto, using(crate::proofs::Clearing::order_keeps), unfolding(crate::specs::Acts::clearing_order))]
fn order_clears(o: Order) -> bool
    ensures { result ≡ clearing_order o }
{
    matches!(o, Order::Cls | Order::Rst)
}

// The later stages of an act that no supply refuses and that clears no register.
fn accept(model: u8, before: Supply, after: Supply) -> Supply
    ensures { result ≡ cv_forgotten (settled model before after) }
{
    supply::settle(model, before, after).forget_cv()
}

// A figure for a setting. No bit of FLT depends on a setting, so only SEVE can gain: PC decides between CV and CC.
pub fn obey_set(model: u8, s: Supply, t: Target, n: u64) -> Result<Supply, ErrorCode>
    ensures { (code_told result ≡ order_code model s (Order.Set t n))
        × (supply_left s result ≡ performed model s (Act.Obey (Order.Set t n))) }
{
    let set = orders::set_done(model, s, t, n)?;
    if s.sena == 0 {
        return Ok(set.forget_cv());
    }
    Ok(supply::gain_seve(model, s, set).forget_cv())
}

// An order: the supply after it, or why it is refused. CLS and RST close with both registers 0.
pub fn obey_order(model: u8, s: Supply, o: Order) -> Result<Supply, ErrorCode>
    ensures { (code_told result ≡ order_code model s o)
        × (supply_left s result ≡ performed model s (Act.Obey o)) }
{
    if let Order::Set(t, n) = o {
        return obey_set(model, s, t, n);
    }
    let done = orders::order_done(model, s, o)?;
    let settled = supply::settle(model, s, done);
    Ok(clear_registers(settled, order_clears(o)).forget_cv())
}

// A sample, and what the registers gain from it.
#[tactic(auto, unfolding(crate::specs::Acts::performed, crate::specs::Acts::code_of, crate::specs::Acts::acted, crate::specs::Acts::clearing_act))]
fn sample_settled(model: u8, s: Supply, v: u16, a: u16) -> Supply
    ensures { result ≡ performed model s (Act.Sample v a) }
{
    accept(model, s, samples::sampled_at(model, s, v, a))
}

// The same. Most fields are samples; with SENA 0 only FEVE can gain, and nothing is passed to a function for SEVE.
pub fn sampled(model: u8, s: Supply, v: u16, a: u16) -> Supply
    ensures { result ≡ performed model s (Act.Sample v a) }
{
    if s.sena == 0 {
        let gained = supply::gain_feve(s, samples::sampled_at(model, s, v, a));
        return gained.forget_cv();
    }
    sample_settled(model, s, v, a)
}

// A query. It leaves FLT as it was, so only SEVE can gain: FEVE? raises the bit that says that FEVE is 0.
pub fn asked(model: u8, s: Supply, q: Query) -> Supply
    ensures { result ≡ performed model s (Act.Ask q) }
{
    let after = after_query(s, q);
    if s.sena == 0 {
        return after.forget_cv();
    }
    supply::gain_seve(model, s, after).forget_cv()
}

// An act: the supply after it, or why it is refused. Only an order can be refused.
#[tactic(auto, unfolding(crate::specs::Acts::performed, crate::specs::Acts::code_of, crate::specs::Acts::acted, crate::specs::Acts::clearing_act))]
pub fn perform(model: u8, s: Supply, a: Act) -> Result<Supply, ErrorCode>
    ensures { (code_told result ≡ code_of model s a)
        × (supply_left s result ≡ performed model s a) }
{
    match a {
        Act::Lines(b) => Ok(accept(model, s, events::lines_changed(s, b))),
        Act::Sample(v, i) => Ok(sample_settled(model, s, v, i)),
        Act::Press(k) => Ok(accept(model, s, events::press(s, k))),
        Act::Turn(t, raw) => Ok(accept(model, s, events::turn(model, s, t, raw))),
        Act::Obey(o) => obey_order(model, s, o),
        Act::Ask(q) => Ok(asked(model, s, q)),
        Act::Nothing => Ok(accept(model, s, s)),
    }
}
