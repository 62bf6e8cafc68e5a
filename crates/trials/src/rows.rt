// A case of the supply as a row of 48 numbers: the state before, an act, and what is expected of it. Makes the state
// and the act from the numbers, and decides whether the supply does what the row expects. tests/src/trial.rs says what
// each number is.
use supply::{Act, Key, Order, Query, QueryAnswer, Supply, Target, Word};

// How many numbers a row has, and where its parts begin. The model is the first number.
pub const CELLS: usize = 48;

const BEFORE: usize = 1;

const ACT: usize = 19;

const CODE: usize = 22;

const AFTER: usize = 23;

const ANSWER: usize = 41;

// How many numbers a state is, and an answer.
const STATE: usize = 18;

const ANSWERED: usize = 7;

fn target_of(n: u64) -> Target {
    Target::try_from(byte_of(n)).unwrap_or(Target::Uvl)
}

fn key_of(n: u64) -> Key {
    Key::try_from(byte_of(n)).unwrap_or(Key::Local)
}

fn query_of(n: u64) -> Query {
    match n {
        0 => Query::Pv,
        1 => Query::Pc,
        2 => Query::Ovp,
        3 => Query::Uvl,
        4 => Query::Mv,
        5 => Query::Mc,
        6 => Query::Out,
        7 => Query::Fld,
        8 => Query::Ast,
        9 => Query::Rmt,
        10 => Query::Mode,
        11 => Query::Flt,
        12 => Query::Fena,
        13 => Query::Feve,
        14 => Query::Stt,
        15 => Query::Stat,
        16 => Query::Sena,
        _ => Query::Seve,
    }
}

fn byte_of(n: u64) -> u8 {
    (n % 256) as u8
}

fn count_of(n: u64) -> u16 {
    (n % 65536) as u16
}

fn figure_of(n: u64) -> u32 {
    (n % 0x1_0000_0000) as u32
}

// The orders are the kinds of act from 5 to 13, and 15.
fn order_of(kind: u64, a: u64, b: u64) -> Order {
    match kind {
        5 => Order::Set(target_of(a), b),
        6 => Order::Ovm,
        7 => Order::Out(a == 1),
        8 => Order::Fld(a == 1),
        9 => Order::Ast(a == 1),
        10 => Order::Rmt(byte_of(a)),
        11 => Order::Fena(byte_of(a)),
        12 => Order::Cls,
        15 => Order::Sena(byte_of(a)),
        _ => Order::Rst,
    }
}

// An act by its kind and two operands.
fn act_of(kind: u64, a: u64, b: u64) -> Act {
    match kind {
        0 => Act::Nothing,
        1 => Act::Lines(byte_of(a)),
        2 => Act::Sample(count_of(a), count_of(b)),
        3 => Act::Press(key_of(a)),
        4 => Act::Turn(target_of(a), figure_of(b)),
        14 => Act::Ask(query_of(a)),
        _ => Act::Obey(order_of(kind, a, b)),
    }
}

// How many values the first operand of a kind of act can have; none if there is no such kind.
fn first_values(kind: u64) -> u64 {
    match kind {
        0 | 6 | 12 | 13 => 1,
        7 | 8 | 9 => 2,
        3 | 10 => 3,
        4 | 5 => 4,
        14 => 18,
        1 | 11 | 15 => 256,
        2 => 65536,
        _ => 0,
    }
}

// How many values the second operand can have.
fn second_values(kind: u64) -> u64 {
    match kind {
        2 => 65536,
        4 => 0x1_0000_0000,
        5 => u64::MAX,
        _ => 1,
    }
}

// The supply before the act.
fn supply_before(row: &[u64; CELLS]) -> Supply {
    let n = &row[BEFORE..ACT];
    Supply {
        pv: figure_of(n[0]),
        pc: figure_of(n[1]),
        ovp: figure_of(n[2]),
        uvl: figure_of(n[3]),
        want: n[4] == 1,
        armed: n[5] == 1,
        ast: n[6] == 1,
        mode: byte_of(n[7]),
        lines: byte_of(n[8]),
        fold_trip: n[9] == 1,
        ovp_trip: n[10] == 1,
        fena: byte_of(n[11]),
        feve: byte_of(n[12]),
        sena: byte_of(n[13]),
        seve: byte_of(n[14]),
        cv_seen: n[15] == 1,
        volt_count: count_of(n[16]),
        amp_count: count_of(n[17]),
    }
}

// The numbers of a state, as a row has them.
fn state_of(s: Supply) -> [u64; STATE] {
    [
        u64::from(s.pv),
        u64::from(s.pc),
        u64::from(s.ovp),
        u64::from(s.uvl),
        u64::from(s.want),
        u64::from(s.armed),
        u64::from(s.ast),
        u64::from(s.mode),
        u64::from(s.lines),
        u64::from(s.fold_trip),
        u64::from(s.ovp_trip),
        u64::from(s.fena),
        u64::from(s.feve),
        u64::from(s.sena),
        u64::from(s.seve),
        u64::from(s.cv_seen),
        u64::from(s.volt_count),
        u64::from(s.amp_count),
    ]
}

// Whether a supply has, in every part, the state that these cells expect.
fn supply_agrees(cells: &[u64], s: Supply) -> bool {
    cells == &state_of(s)[..]
}

fn word_number(w: Word) -> u64 {
    match w {
        Word::On => 0,
        Word::Off => 1,
        Word::Loc => 2,
        Word::Rem => 3,
        Word::Llo => 4,
        Word::Cc => 5,
        Word::Cv => 6,
    }
}

// The numbers of an answer, as a row has them: its kind and its values.
fn answer_numbers(a: QueryAnswer) -> [u64; ANSWERED] {
    match a {
        QueryAnswer::Figure(decimals, n) => [1, u64::from(decimals), n, 0, 0, 0, 0],
        QueryAnswer::Says(w) => [2, word_number(w), 0, 0, 0, 0, 0],
        QueryAnswer::Hex(b) => [3, u64::from(b), 0, 0, 0, 0, 0],
        QueryAnswer::Tells(t) => [
            4,
            t.volts,
            t.pv,
            t.amps,
            t.pc,
            u64::from(t.stat),
            u64::from(t.flt),
        ],
    }
}

// A query is answered from the supply before it; no other act has an answer.
fn reply_agrees(row: &[u64; CELLS], model: u8, s: Supply, a: Act) -> bool {
    let expected = if let Act::Ask(q) = a {
        answer_numbers(answers::answer_to(model, s, q))
    } else {
        [0; ANSWERED]
    };
    row[ANSWER..] == expected[..]
}

// Whether there is such a model and such an act, and the row holds exactly the state that was made from it.
fn row_reads(row: &[u64; CELLS], before: Supply) -> bool {
    let kind = row[ACT];
    row[0] < 12
        && supply_agrees(&row[BEFORE..ACT], before)
        && row[ACT + 1] < first_values(kind)
        && row[ACT + 2] < second_values(kind)
}

// Whether the supply does what the row expects.
pub fn row_holds(row: &[u64; CELLS]) -> bool {
    let model = byte_of(row[0]);
    let before = supply_before(row);
    let act = act_of(row[ACT], row[ACT + 1], row[ACT + 2]);
    let (code, after) = match acts::perform(model, before, act) {
        Ok(after) => (0, after),
        Err(e) => (u8::from(e), before),
    };
    row_reads(row, before)
        && row[CODE] == u64::from(code)
        && supply_agrees(&row[AFTER..ANSWER], after)
        && reply_agrees(row, model, before, act)
}
