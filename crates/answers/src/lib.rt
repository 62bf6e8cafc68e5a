// Layer supply.
// The answers to queries: a figure, a word, a byte or a whole status, from the supply as it stands.
#![tactic(auto)]

ghost use Rattle.std.specs.Prelude.{◌≡◌};
ghost use Rattle.answers.specs.Answers.{mode_word, running, status_of, answer_of};

use supply::{Query, QueryAnswer, Status, Supply, Word};

#[tactic(auto, unfolding(crate::specs::Answers::mode_word))]
fn mode_word(mode: u8) -> Word
    ensures { result ≡ mode_word mode }
{
    match mode {
        0 => Word::Loc,
        1 => Word::Rem,
        _ => Word::Llo,
    }
}

#[tactic(auto, unfolding(crate::specs::Answers::running))]
fn running_word(model: u8, s: Supply) -> Word
    ensures { result ≡ running model s }
{
    if !s.is_on() {
        Word::Off
    } else if s.in_limit(model) {
        Word::Cc
    } else {
        Word::Cv
    }
}

// What STT? tells.
fn status_of(model: u8, s: Supply) -> Status
    ensures { result ≡ status_of model s }
{
    Status {
        volts: models::volt_reading(model, s.volt_count),
        pv: u64::from(s.pv),
        amps: models::amp_reading(model, s.amp_count),
        pc: u64::from(s.pc),
        stat: s.stat(model),
        flt: s.flt(),
    }
}

// The answer to a query, from the supply as it stands before the query.
#[tactic(auto, unfolding(crate::specs::Answers::answer_of))]
pub fn answer_to(model: u8, s: Supply, q: Query) -> QueryAnswer
    ensures { result ≡ answer_of model s q }
{
    match q {
        Query::Pv => QueryAnswer::Figure(4, u64::from(s.pv)),
        Query::Pc => QueryAnswer::Figure(3, u64::from(s.pc)),
        Query::Ovp => QueryAnswer::Figure(4, u64::from(s.ovp)),
        Query::Uvl => QueryAnswer::Figure(4, u64::from(s.uvl)),
        Query::Mv => QueryAnswer::Figure(4, models::volt_reading(model, s.volt_count)),
        Query::Mc => QueryAnswer::Figure(3, models::amp_reading(model, s.amp_count)),
        Query::Out => QueryAnswer::Says(Word::from(s.is_on())),
        Query::Fld => QueryAnswer::Says(Word::from(s.armed)),
        Query::Ast => QueryAnswer::Says(Word::from(s.ast)),
        Query::Rmt => QueryAnswer::Says(mode_word(s.mode)),
        Query::Mode => QueryAnswer::Says(running_word(model, s)),
        Query::Flt => QueryAnswer::Hex(s.flt()),
        Query::Fena => QueryAnswer::Hex(s.fena),
        Query::Feve => QueryAnswer::Hex(s.feve),
        Query::Stt => QueryAnswer::Tells(status_of(model, s)),
        Query::Stat => QueryAnswer::Hex(s.stat(model)),
        Query::Sena => QueryAnswer::Hex(s.sena),
        Query::Seve => QueryAnswer::Hex(s.seve),
    }
}
