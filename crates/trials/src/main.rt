// Layer checks.
// Tries the supply on a table of cases from standard input: one line of 48 numbers for each case, with the expected
// outcome. A second model of the supply, which shares nothing with this one, writes the table (tests/src/trial.rs says
// what each number is). Prints the lines of the first wrong cases, then how many cases there were and how many were
// wrong.
#![tactic(auto)]

ghost use Rattle.std.specs.Prelude.{◌≤◌, length};

mod rows;

use rows::CELLS;
use std::io;
use std::io::Read;

// The next cell of a row that has too many numbers, or something that is not a number.
const SPOILED: usize = 47;

// How many wrong cases are named.
const NAMED: u64 = 10;

// How far the table is read: the next cell of the row, the number so far, how many cases were tried, how many were
// wrong, and whether the input may have more.
#[derive(Clone, Copy)]
struct Tally {
    at: usize,
    number: u64,
    cases: u64,
    wrong: u64,
    more: bool,
}

// Names the line of a wrong case, unless enough of them are named.
fn name_wrong(rt: &HostRuntime, line: u64, wrong: u64) {
    if wrong < NAMED {
        let _ = println!(rt; "wrong: line {line}");
    }
}

// Appends a digit to a number; no number in a table is as large as the bound.
fn with_digit(n: u64, d: u8) -> u64 {
    if n < 1_000_000_000_000_000_000 {
        n * 10 + u64::from(d)
    } else {
        n
    }
}

// A character of a number; anything but a digit spoils the row.
fn take_digit(t: Tally, b: u8) -> Tally {
    if b.is_ascii_digit() {
        let number = with_digit(t.number, b - b'0');
        Tally { number, ..t }
    } else {
        Tally { at: SPOILED, ..t }
    }
}

// A number ends and goes to its cell.
fn end_number(row: &mut [u64; CELLS], t: Tally) -> Tally {
    if t.at >= CELLS {
        return Tally {
            at: SPOILED,
            number: 0,
            ..t
        };
    }
    row[t.at] = t.number;
    Tally {
        at: t.at + 1,
        number: 0,
        ..t
    }
}

// A row ends, and its case is tried.
fn end_row(rt: &HostRuntime, row: &[u64; CELLS], t: Tally) -> Tally {
    let cases = t.cases.saturating_add(1);
    if t.at == CELLS && rows::row_holds(row) {
        return Tally { at: 0, cases, ..t };
    }
    name_wrong(rt, cases, t.wrong);
    Tally {
        at: 0,
        cases,
        wrong: t.wrong.saturating_add(1),
        ..t
    }
}

fn take_byte(rt: &HostRuntime, row: &mut [u64; CELLS], t: Tally, b: u8) -> Tally {
    match b {
        b'\n' => {
            let ended = end_number(row, t);
            end_row(rt, row, ended)
        }
        b' ' => end_number(row, t),
        _ => take_digit(t, b),
    }
}

fn take_bytes(rt: &HostRuntime, row: &mut [u64; CELLS], mut t: Tally, s: &[u8]) -> Tally {
    for b in s {
        t = take_byte(rt, row, t, *b);
    }
    t
}

// Reads until the buffer is full, the input ends or a read fails, and returns how many bytes came.
fn read_full(rt: &HostRuntime, buf: &mut [u8]) -> usize
    ensures { result ≤ length buf.new }
{
    let mut done = 0;
    while done < buf.len() {
        let n = rt.stdin().read(&mut buf[done..]).unwrap_or(0);
        if n == 0 {
            return done;
        }
        done += n;
    }
    done
}

// Reads a block of the table and tries each case that ends in it.
fn take_block(rt: &HostRuntime, row: &mut [u64; CELLS], t: Tally) -> Tally {
    let mut buf = [0u8; 65_536];
    let n = read_full(rt, &mut buf);
    Tally {
        more: 0 < n,
        ..take_bytes(rt, row, t, &buf[..n])
    }
}

// Reads to the end of the input; the bound allows more blocks than any table has.
fn take_table(rt: &HostRuntime) -> Tally {
    let mut row = [0u64; CELLS];
    let mut t = Tally {
        at: 0,
        number: 0,
        cases: 0,
        wrong: 0,
        more: true,
    };
    for _ in 0..1_000_000 {
        if !t.more {
            break;
        }
        t = take_block(rt, &mut row, t);
    }
    t
}

fn main(rt: HostRuntime) -> io::Result<()> {
    let Tally { cases, wrong, .. } = take_table(&rt);
    println!(rt; "{cases} cases, {wrong} wrong")
}
