// Layer line.
// What a line asks, by its word and its parameter: an order, a query, an address to select, or an error code.
#![tactic(auto)]

ghost use Rattle.std.specs.Prelude.{◌≡◌, ◌≤◌};
ghost use Rattle.words.specs.Words.{find_number};
ghost use Rattle.parameters.specs.Parameters.{bare, number, switch, hex, parameter_of};
ghost use Rattle.asks.specs.Words.{set, out, fld, ast, rmt, fena, sena, of_one, selecting};
ghost use Rattle.asks.specs.Words.{unknown_word, commands, asked_by};
ghost use Rattle.asks.specs.Asked.{asks_of};
ghost use Rattle.asks.specs.Told.{asks_told, one_told, all_told, OrderRead, BareRead};

use supply::{Act, ErrorCode, Order, Query, Target};

// What a line asks: to select an address (or it is an ADR in error, with its error code); an order to every fitted
// supply (or it is a global line in error, which nobody takes); an act of one supply; or it is a line in error, with
// its error code.
#[derive(Clone, Copy)]
pub enum Asks {
    Select(u8),
    BadSelect(ErrorCode),
    Everyone(Order),
    Nobody,
    One(Act),
    Error(ErrorCode),
}

// An order to one supply, or the error code of its parameter.
fn to_one(order: Result<Order, ErrorCode>) -> Asks
    ensures { asks_told result ≡ one_told order }
{
    match order {
        Ok(order) => Asks::One(Act::Obey(order)),
        Err(code) => Asks::Error(code),
    }
}

// An order to every fitted supply; nobody takes it if it is in error.
fn to_all(order: Result<Order, ErrorCode>) -> Asks
    ensures { asks_told result ≡ all_told order }
{
    match order {
        Ok(order) => Asks::Everyone(order),
        Err(_) => Asks::Nobody,
    }
}

fn set(t: Target, k: usize, x: &[u8]) -> Result<Order, ErrorCode>
    requires { k ≤ 6 }
    ensures { OrderRead (set t) (parameter_of (number k) x.now) result }
{
    Ok(Order::Set(t, parameters::number_parameter(x, k)?))
}

fn out(x: &[u8]) -> Result<Order, ErrorCode>
    ensures { OrderRead out (parameter_of (switch 1) x.now) result }
{
    Ok(Order::Out(parameters::switch_parameter(x, 1)? == 1))
}

fn fld(x: &[u8]) -> Result<Order, ErrorCode>
    ensures { OrderRead fld (parameter_of (switch 1) x.now) result }
{
    Ok(Order::Fld(parameters::switch_parameter(x, 1)? == 1))
}

fn ast(x: &[u8]) -> Result<Order, ErrorCode>
    ensures { OrderRead ast (parameter_of (switch 1) x.now) result }
{
    Ok(Order::Ast(parameters::switch_parameter(x, 1)? == 1))
}

fn rmt(x: &[u8]) -> Result<Order, ErrorCode>
    ensures { OrderRead rmt (parameter_of (switch 2) x.now) result }
{
    Ok(Order::Rmt(parameters::switch_parameter(x, 2)?))
}

fn fena(x: &[u8]) -> Result<Order, ErrorCode>
    ensures { OrderRead fena (parameter_of hex x.now) result }
{
    Ok(Order::Fena(parameters::hex_parameter(x)?))
}

fn sena(x: &[u8]) -> Result<Order, ErrorCode>
    ensures { OrderRead sena (parameter_of hex x.now) result }
{
    Ok(Order::Sena(parameters::hex_parameter(x)?))
}

// An order whose word takes no parameter.
fn bare(order: Order, x: &[u8]) -> Result<Order, ErrorCode>
    ensures { BareRead order (parameter_of bare x.now) result }
{
    parameters::bare_parameter(x)?;
    Ok(order)
}

#[tactic(auto, unfolding(crate::specs::Words::asked_by))]
fn query(q: Query, x: &[u8]) -> Asks
    ensures { asks_told result ≡ asked_by (of_one q) x.now }
{
    match parameters::bare_parameter(x) {
        Ok(()) => Asks::One(Act::Ask(q)),
        Err(code) => Asks::Error(code),
    }
}

#[tactic(auto, unfolding(crate::specs::Words::asked_by))]
fn select(x: &[u8]) -> Asks
    ensures { asks_told result ≡ asked_by selecting x.now }
{
    match parameters::address_parameter(x) {
        Ok(address) => Asks::Select(address),
        Err(code) => Asks::BadSelect(code),
    }
}

// The words as numbers: a leading 1, then one byte per character.
const PV: u64 = 0x1_50_56;

const PC: u64 = 0x1_50_43;

const OVP: u64 = 0x1_4f_56_50;

const OVM: u64 = 0x1_4f_56_4d;

const UVL: u64 = 0x1_55_56_4c;

const OUT: u64 = 0x1_4f_55_54;

const FLD: u64 = 0x1_46_4c_44;

const AST: u64 = 0x1_41_53_54;

const RMT: u64 = 0x1_52_4d_54;

const FENA: u64 = 0x1_46_45_4e_41;

const SENA: u64 = 0x1_53_45_4e_41;

const CLS: u64 = 0x1_43_4c_53;

const RST: u64 = 0x1_52_53_54;

const PV_ASKED: u64 = 0x1_50_56_3f;

const PC_ASKED: u64 = 0x1_50_43_3f;

const OVP_ASKED: u64 = 0x1_4f_56_50_3f;

const UVL_ASKED: u64 = 0x1_55_56_4c_3f;

const MV_ASKED: u64 = 0x1_4d_56_3f;

const MC_ASKED: u64 = 0x1_4d_43_3f;

const OUT_ASKED: u64 = 0x1_4f_55_54_3f;

const FLD_ASKED: u64 = 0x1_46_4c_44_3f;

const AST_ASKED: u64 = 0x1_41_53_54_3f;

const RMT_ASKED: u64 = 0x1_52_4d_54_3f;

const MODE_ASKED: u64 = 0x1_4d_4f_44_45_3f;

const FLT_ASKED: u64 = 0x1_46_4c_54_3f;

const FENA_ASKED: u64 = 0x1_46_45_4e_41_3f;

const FEVE_ASKED: u64 = 0x1_46_45_56_45_3f;

const STT_ASKED: u64 = 0x1_53_54_54_3f;

const STAT_ASKED: u64 = 0x1_53_54_41_54_3f;

const SENA_ASKED: u64 = 0x1_53_45_4e_41_3f;

const SEVE_ASKED: u64 = 0x1_53_45_56_45_3f;

const ADR: u64 = 0x1_41_44_52;

const GPV: u64 = 0x1_47_50_56;

const GPC: u64 = 0x1_47_50_43;

const GOUT: u64 = 0x1_47_4f_55_54;

const GRST: u64 = 0x1_47_52_53_54;

// What a line asks with the word of this number and this parameter: one match with an arm for each order and query, as
// docs/TRACE.md has it.
fn asks_of_word(word: u64, x: &[u8]) -> Asks
    ensures { asks_told result ≡ asked_by (find_number unknown_word commands word) x.now }
{
    match word {
        PV => to_one(set(Target::Pv, 4, x)),
        PC => to_one(set(Target::Pc, 3, x)),
        OVP => to_one(set(Target::Ovp, 4, x)),
        OVM => to_one(bare(Order::Ovm, x)),
        UVL => to_one(set(Target::Uvl, 4, x)),
        OUT => to_one(out(x)),
        FLD => to_one(fld(x)),
        AST => to_one(ast(x)),
        RMT => to_one(rmt(x)),
        FENA => to_one(fena(x)),
        SENA => to_one(sena(x)),
        CLS => to_one(bare(Order::Cls, x)),
        RST => to_one(bare(Order::Rst, x)),
        PV_ASKED => query(Query::Pv, x),
        PC_ASKED => query(Query::Pc, x),
        OVP_ASKED => query(Query::Ovp, x),
        UVL_ASKED => query(Query::Uvl, x),
        MV_ASKED => query(Query::Mv, x),
        MC_ASKED => query(Query::Mc, x),
        OUT_ASKED => query(Query::Out, x),
        FLD_ASKED => query(Query::Fld, x),
        AST_ASKED => query(Query::Ast, x),
        RMT_ASKED => query(Query::Rmt, x),
        MODE_ASKED => query(Query::Mode, x),
        FLT_ASKED => query(Query::Flt, x),
        FENA_ASKED => query(Query::Fena, x),
        FEVE_ASKED => query(Query::Feve, x),
        STT_ASKED => query(Query::Stt, x),
        STAT_ASKED => query(Query::Stat, x),
        SENA_ASKED => query(Query::Sena, x),
        SEVE_ASKED => query(Query::Seve, x),
        ADR => select(x),
        GPV => to_all(set(Target::Pv, 4, x)),
        GPC => to_all(set(Target::Pc, 3, x)),
        GOUT => to_all(out(x)),
        GRST => to_all(bare(Order::Rst, x)),
        _ => Asks::Error(ErrorCode::C01),
    }
}

// What a line without its checksum asks.
#[tactic(auto, unfolding(crate::specs::Asked::asks_of))]
pub fn asks_of(t: &[u8]) -> Asks
    ensures { asks_told result ≡ asks_of t.now }
{
    if t.is_empty() {
        return Asks::One(Act::Nothing);
    }
    let p = figures::first_at(t, b' ');
    let word = words::word_number(base::part_to(t, p));
    asks_of_word(word, figures::part_after(t, p))
}
