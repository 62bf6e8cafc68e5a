// Layer calls.
// The resistance of the cell at an address, for a plot, and the volts and amperes beside it; and the same as numbers,
// for programs in C or Rust.
#![tactic(auto)]

ghost use Rattle.std.specs.Prelude.{◌≡◌, ◌<◌, ◌^◌};
ghost use Rattle.resistance.specs.Cells.{resistance_of, cell_by, cell_of, cell_at};
ghost use Rattle.resistance.specs.Numbers.{no_figure, kind_of, ohms_of, refused_numbers, cell_numbers};

use field::Refusal;
use slots::Rack;
use supply::Supply;

// The resistance of a cell in ohms; or that it is open, so that no current flows; or that the output is off.
#[derive(Clone, Copy)]
pub enum Resistance {
    Ohms(f64),
    Open,
    Off,
}

// The readings of a supply, in volts and amperes.
#[derive(Clone, Copy)]
pub struct Metered {
    pub volts: f64,
    pub amps: f64,
}

// A cell: its resistance, and the readings of its supply, which stand beside all three answers.
#[derive(Clone, Copy)]
pub struct Cell {
    pub resistance: Resistance,
    pub metered: Metered,
}

// A cell as numbers: code 0, the kind of its resistance (0 ohms, 1 open, 2 off) and its figures; or code 6, kind 255
// and no figures. A missing figure is a NaN.
#[repr(C)]
#[derive(Clone, Copy)]
pub struct CellNumbers {
    pub code: u8,
    pub kind: u8,
    pub ohms: f64,
    pub volts: f64,
    pub amps: f64,
}

// The resistance, given whether the output is on and the readings in ticks and mA.
fn resistance_of(on: bool, ticks: u64, ma: u64) -> Resistance
    requires { (ticks < 2 ^ 32) × (ma < 2 ^ 32) }
    ensures { result ≡ resistance_of on ticks ma }
{
    if !on {
        return Resistance::Off;
    }
    if ma == 0 {
        return Resistance::Open;
    }
    Resistance::Ohms(quotients::quotient(ticks, 10 * ma))
}

// A cell, given the same three.
fn cell_by(on: bool, ticks: u64, ma: u64) -> Cell
    requires { (ticks < 2 ^ 32) × (ma < 2 ^ 32) }
    ensures { result ≡ cell_by on ticks ma }
{
    let resistance = resistance_of(on, ticks, ma);
    let metered = Metered {
        volts: quotients::quotient(ticks, 10_000),
        amps: quotients::quotient(ma, 1000),
    };
    Cell {
        resistance,
        metered,
    }
}

// The cell of a supply, by the readings of its stored counts.
fn cell_of(model: u8, s: Supply) -> Cell
    ensures { result ≡ cell_of model s }
{
    let read = models::readings_of(model, s.volt_count, s.amp_count);
    cell_by(s.is_on(), read.volts, read.amps)
}

// The cell at an address; or refusal 6, where no supply is fitted.
pub fn cell_at(r: Rack, address: u64) -> Result<Cell, Refusal>
    ensures { result ≡ cell_at r address }
{
    if 30 < address {
        return Err(Refusal::NoSupply);
    }
    let Some(model) = serial::model_at(r.setup, address as u8) else {
        return Err(Refusal::NoSupply);
    };
    Ok(cell_of(model, r.slots[address as usize]))
}

// What stands for a missing figure.
fn no_figure() -> f64
    ensures { result ≡ no_figure }
{
    0.0 / 0.0
}

fn kind_of(r: Resistance) -> u8
    ensures { result ≡ kind_of r }
{
    match r {
        Resistance::Ohms(_) => 0,
        Resistance::Open => 1,
        Resistance::Off => 2,
    }
}

fn ohms_of(r: Resistance) -> f64
    ensures { result ≡ ohms_of r }
{
    match r {
        Resistance::Ohms(ohms) => ohms,
        Resistance::Open => no_figure(),
        Resistance::Off => no_figure(),
    }
}

// A refusal as numbers: its code, kind 255 and no figures.
fn refused_numbers(refusal: Refusal) -> CellNumbers
    ensures { result ≡ refused_numbers refusal }
{
    CellNumbers {
        code: u8::from(refusal),
        kind: 255,
        ohms: no_figure(),
        volts: no_figure(),
        amps: no_figure(),
    }
}

// The cell at an address as numbers.
pub fn cell_numbers(r: Rack, address: u64) -> CellNumbers
    ensures { result ≡ cell_numbers (cell_at r address) }
{
    match cell_at(r, address) {
        Ok(cell) => CellNumbers {
            code: 0,
            kind: kind_of(cell.resistance),
            ohms: ohms_of(cell.resistance),
            volts: cell.metered.volts,
            amps: cell.metered.amps,
        },
        Err(refusal) => refused_numbers(refusal),
    }
}
