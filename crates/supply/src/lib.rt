// Layer supply.
// The plain supply: its state, everything that can happen to it, FLT and STAT, and what an event adds to FEVE and SEVE.
// The model is passed alongside the state.
#![tactic(auto)]

ghost use Rattle.std.specs.Prelude.{◌≡◌, leb};
ghost use Rattle.base.specs.Choice.{pick};
ghost use Rattle.supply.specs.State.{fresh};
ghost use Rattle.supply.specs.ErrorCodes.{code_byte};
ghost use Rattle.supply.specs.Numbered.{key_numbered, target_numbered};
ghost use Rattle.supply.specs.Flt.{flt_of, on_of, lines_clear, in_limit};
ghost use Rattle.supply.specs.Stat.{stat_of};
ghost use Rattle.supply.specs.Memory.{cv_forgotten};
ghost use Rattle.supply.specs.Registers.{feve_gained, seve_gained, settled};

// The whole state of a supply. Figures are in ticks of 0.1 mV and in mA; mode is 0 local, 1 remote, 2 locked out.
// cv_seen is the CV memory: whether a sample was judged CV since the output came on. mode stays a number: a program in C
// lends the rack, and any byte may stand there.
#[repr(C)]
#[derive(Clone, Copy)]
pub struct Supply {
    pub pv: u32,
    pub pc: u32,
    pub ovp: u32,
    pub uvl: u32,
    pub want: bool,
    pub armed: bool,
    pub ast: bool,
    pub mode: u8,
    pub lines: u8,
    pub fold_trip: bool,
    pub ovp_trip: bool,
    pub fena: u8,
    pub feve: u8,
    pub sena: u8,
    pub seve: u8,
    pub cv_seen: bool,
    pub volt_count: u16,
    pub amp_count: u16,
}

// Why a line or an order is refused. A line draws C01 to C05, an order C05 (a figure beyond its limits) or one of the
// others.
#[derive(Clone, Copy, PartialEq, Eq)]
pub enum ErrorCode {
    C01,
    C02,
    C03,
    C04,
    C05,
    E01,
    E02,
    E04,
    E06,
    E07,
}

// The byte whose hexadecimal digits are the letter and the last digit of the code's name.
impl From<ErrorCode> for u8 {
    fn from(code: ErrorCode) -> u8
        ensures { result ≡ code_byte code }
    {
        match code {
            ErrorCode::C01 => 0xC1,
            ErrorCode::C02 => 0xC2,
            ErrorCode::C03 => 0xC3,
            ErrorCode::C04 => 0xC4,
            ErrorCode::C05 => 0xC5,
            ErrorCode::E01 => 0xE1,
            ErrorCode::E02 => 0xE2,
            ErrorCode::E04 => 0xE4,
            ErrorCode::E06 => 0xE6,
            ErrorCode::E07 => 0xE7,
        }
    }
}

#[derive(Clone, Copy)]
pub enum Target {
    Pv,
    Pc,
    Ovp,
    Uvl,
}

#[derive(Clone, Copy)]
pub enum Key {
    Output,
    Fold,
    Local,
}

// A number that no key, or no target, has.
#[derive(Clone, Copy, Debug, PartialEq, Eq)]
pub struct NotListed;

// The key with a number, as a field gives it.
impl TryFrom<u8> for Key {
    type Error = NotListed;

    ghost try_from_gives = { λ n r. r ≡ key_numbered n };

    fn try_from(n: u8) -> Result<Key, NotListed> {
        match n {
            0 => Ok(Key::Output),
            1 => Ok(Key::Fold),
            2 => Ok(Key::Local),
            _ => Err(NotListed),
        }
    }
}

// The target with a number, as a field gives it.
impl TryFrom<u8> for Target {
    type Error = NotListed;

    ghost try_from_gives = { λ n r. r ≡ target_numbered n };

    fn try_from(n: u8) -> Result<Target, NotListed> {
        match n {
            0 => Ok(Target::Pv),
            1 => Ok(Target::Pc),
            2 => Ok(Target::Ovp),
            3 => Ok(Target::Uvl),
            _ => Err(NotListed),
        }
    }
}

#[derive(Clone, Copy)]
pub enum Order {
    Set(Target, u64),
    Ovm,
    Out(bool),
    Fld(bool),
    Ast(bool),
    Rmt(u8),
    Fena(u8),
    Sena(u8),
    Cls,
    Rst,
}

#[derive(Clone, Copy)]
pub enum Query {
    Pv,
    Pc,
    Ovp,
    Uvl,
    Mv,
    Mc,
    Out,
    Fld,
    Ast,
    Rmt,
    Mode,
    Flt,
    Fena,
    Feve,
    Stt,
    Stat,
    Sena,
    Seve,
}

// Everything that can happen to a supply: a new LINES byte, a sample of two counts, a key, a knob step
// (32 bits in two's complement), an order, a query, or nothing (the empty line).
#[derive(Clone, Copy)]
pub enum Act {
    Lines(u8),
    Sample(u16, u16),
    Press(Key),
    Turn(Target, u32),
    Obey(Order),
    Ask(Query),
    Nothing,
}

#[derive(Clone, Copy)]
pub enum Word {
    On,
    Off,
    Loc,
    Rem,
    Llo,
    Cc,
    Cv,
}

// A switch in words.
impl From<bool> for Word {
    fn from(on: bool) -> Word
        ensures { result ≡ pick on Word.On Word.Off }
    {
        if on { Word::On } else { Word::Off }
    }
}

// What STT? tells: the volt reading and PV in ticks, the ampere reading and PC in mA, STAT and FLT.
#[derive(Clone, Copy)]
pub struct Status {
    pub volts: u64,
    pub pv: u64,
    pub amps: u64,
    pub pc: u64,
    pub stat: u8,
    pub flt: u8,
}

// The answer to a query, by meaning: a figure with its number of decimals, a word, a byte, or all that STT? tells.
#[derive(Clone, Copy)]
pub enum QueryAnswer {
    Figure(u8, u64),
    Says(Word),
    Hex(u8),
    Tells(Status),
}

impl Supply {
    // A supply as fitted.
    #[tactic(auto, unfolding(crate::specs::State::fresh))]
    pub fn fresh(model: u8) -> Self
        ensures { result ≡ fresh model }
    {
        Supply {
            pv: 0,
            pc: 0,
            ovp: models::limits_of(model).ovp_most,
            uvl: 0,
            want: false,
            armed: false,
            ast: false,
            mode: 0,
            lines: 0,
            fold_trip: false,
            ovp_trip: false,
            fena: 0,
            feve: 0,
            sena: 0,
            seve: 0,
            cv_seen: false,
            volt_count: 0,
            amp_count: 0,
        }
    }

    // The FLT byte.
    #[tactic(auto, unfolding(crate::specs::Flt::flt_of))]
    pub fn flt(self) -> u8
        ensures { result ≡ flt_of self }
    {
        (self.lines & 0xA6)
            | (u8::from(self.fold_trip) << 3)
            | (u8::from(self.ovp_trip) << 4)
            | (u8::from(!self.want) << 6)
    }

    // Whether the output is on.
    #[tactic(auto, unfolding(crate::specs::Flt::on_of))]
    pub fn is_on(self) -> bool
        ensures { result ≡ on_of self }
    {
        self.flt() == 0
    }

    // Whether LINES is 0, so that the output may be turned on.
    #[tactic(auto, unfolding(crate::specs::Flt::lines_clear))]
    pub fn lines_clear(self) -> bool
        ensures { result ≡ lines_clear self }
    {
        self.lines == 0
    }

    // Whether an ampere reading is at least PC.
    pub fn reaches_pc(self, amps: u64) -> bool
        ensures { result ≡ leb self.pc amps }
    {
        u64::from(self.pc) <= amps
    }

    // Whether the ampere reading of the stored counts is at least PC.
    #[tactic(auto, unfolding(crate::specs::Flt::in_limit))]
    pub fn in_limit(self, model: u8) -> bool
        ensures { result ≡ in_limit model self }
    {
        self.reaches_pc(models::amp_reading(model, self.amp_count))
    }

    // The STAT byte.
    #[tactic(auto, unfolding(crate::specs::Stat::stat_of))]
    pub fn stat(self, model: u8) -> u8
        ensures { result ≡ stat_of model self }
    {
        let on = self.is_on();
        let limited = self.in_limit(model);
        let no_fault = self.feve == 0;
        let local = self.mode == 0;
        u8::from(on & !limited)
            | (u8::from(on & limited) << 1)
            | (u8::from(no_fault) << 2)
            | (u8::from(!no_fault) << 3)
            | (u8::from(self.ast) << 4)
            | (u8::from(self.armed) << 5)
            | (u8::from(local) << 7)
    }

    // Ends an act: with the output off, a supply forgets that a sample was judged CV.
    #[tactic(auto, unfolding(crate::specs::Memory::cv_forgotten))]
    pub fn forget_cv(self) -> Self
        ensures { result ≡ cv_forgotten self }
    {
        let cv_seen = self.is_on() && self.cv_seen;
        Supply { cv_seen, ..self }
    }
}

// FEVE gains each FLT bit that rose and that FENA enabled before.
#[tactic(auto, unfolding(crate::specs::Registers::feve_gained))]
pub fn gain_feve(before: Supply, after: Supply) -> Supply
    ensures { result ≡ feve_gained before after }
{
    let feve = after.feve | (after.flt() & !before.flt() & before.fena);
    Supply { feve, ..after }
}

// SEVE gains each STAT bit that rose and that SENA enabled before.
#[tactic(auto, unfolding(crate::specs::Registers::seve_gained))]
pub fn gain_seve(model: u8, before: Supply, after: Supply) -> Supply
    ensures { result ≡ seve_gained model before after }
{
    let seve = after.seve | (after.stat(model) & !before.stat(model) & before.sena);
    Supply { seve, ..after }
}

// The second stage of an act: FEVE gains first, then SEVE. With SENA 0 it can gain nothing, and STAT is not worked out.
#[tactic(auto, using(crate::proofs::Gains::seve_disabled), unfolding(crate::specs::Registers::settled))]
pub fn settle(model: u8, before: Supply, after: Supply) -> Supply
    ensures { result ≡ settled model before after }
{
    let gained = gain_feve(before, after);
    if before.sena == 0 {
        return gained;
    }
    gain_seve(model, before, gained)
}
