// Layer supply.
// The twelve models of the supply with five limits each, and readings by model number.
#![tactic(auto)]

ghost use Rattle.std.specs.Prelude.{◌≡◌, ◌*◌, ◌/◌};
ghost use Rattle.models.specs.Models.{limits_of, volt_reading, amp_reading};

// The limits of a model: volts in ticks of 0.1 mV, amperes in mA.
#[derive(Clone, Copy)]
pub struct Limits {
    pub volts: u32,
    pub amps: u32,
    pub ovp_least: u32,
    pub ovp_most: u32,
    pub uvl_most: u32,
}

// The readings of a sample: volts in ticks of 0.1 mV, amperes in mA.
#[derive(Clone, Copy)]
pub struct Readings {
    pub volts: u64,
    pub amps: u64,
}

const MODELS: [Limits; 12] = [
    Limits {
        volts: 60_000,
        amps: 100_000,
        ovp_least: 5000,
        ovp_most: 75_000,
        uvl_most: 57_000,
    },
    Limits {
        volts: 80_000,
        amps: 90_000,
        ovp_least: 5000,
        ovp_most: 100_000,
        uvl_most: 76_000,
    },
    Limits {
        volts: 125_000,
        amps: 60_000,
        ovp_least: 10_000,
        ovp_most: 150_000,
        uvl_most: 119_000,
    },
    Limits {
        volts: 200_000,
        amps: 38_000,
        ovp_least: 10_000,
        ovp_most: 240_000,
        uvl_most: 190_000,
    },
    Limits {
        volts: 300_000,
        amps: 25_000,
        ovp_least: 20_000,
        ovp_most: 360_000,
        uvl_most: 285_000,
    },
    Limits {
        volts: 400_000,
        amps: 19_000,
        ovp_least: 20_000,
        ovp_most: 440_000,
        uvl_most: 380_000,
    },
    Limits {
        volts: 600_000,
        amps: 12_500,
        ovp_least: 50_000,
        ovp_most: 660_000,
        uvl_most: 570_000,
    },
    Limits {
        volts: 800_000,
        amps: 9500,
        ovp_least: 50_000,
        ovp_most: 880_000,
        uvl_most: 760_000,
    },
    Limits {
        volts: 1_000_000,
        amps: 7500,
        ovp_least: 50_000,
        ovp_most: 1_100_000,
        uvl_most: 950_000,
    },
    Limits {
        volts: 1_500_000,
        amps: 5000,
        ovp_least: 50_000,
        ovp_most: 1_650_000,
        uvl_most: 1_420_000,
    },
    Limits {
        volts: 3_000_000,
        amps: 2500,
        ovp_least: 50_000,
        ovp_most: 3_300_000,
        uvl_most: 2_850_000,
    },
    Limits {
        volts: 6_000_000,
        amps: 1300,
        ovp_least: 50_000,
        ovp_most: 6_600_000,
        uvl_most: 5_700_000,
    },
];

// A row of the table; all 0 for a number that has none.
#[tactic(auto, unfolding(crate::specs::Models::limits_of, crate::specs::Models::table))]
fn look_up(model: u8) -> Limits
    ensures { result ≡ limits_of model }
{
    if model < 12 {
        MODELS[model as usize]
    } else {
        Limits {
            volts: 0,
            amps: 0,
            ovp_least: 0,
            ovp_most: 0,
            uvl_most: 0,
        }
    }
}

// The limits of a model; all 0 for a number that is no model. The compiler works out a look-up in advance
// if it knows the number; otherwise it lays out the whole table on the stack each time.
#[tactic(auto, unfolding(crate::specs::Models::limits_of, crate::specs::Models::table))]
pub fn limits_of(model: u8) -> Limits
    ensures { result ≡ limits_of model }
{
    match model {
        0 => look_up(0),
        1 => look_up(1),
        2 => look_up(2),
        3 => look_up(3),
        4 => look_up(4),
        5 => look_up(5),
        6 => look_up(6),
        7 => look_up(7),
        8 => look_up(8),
        9 => look_up(9),
        10 => look_up(10),
        11 => look_up(11),
        _ => look_up(model),
    }
}

// The reading of a count, rounded down to a whole unit; 50,000 counts are the rating.
fn reading(count: u16, rating: u32) -> u64
    ensures { result ≡ count * rating / 50000 }
{
    (count as u64) * (rating as u64) / 50000
}

// The volt reading of a count, in ticks.
#[tactic(auto, unfolding(crate::specs::Models::volt_reading))]
pub fn volt_reading(model: u8, count: u16) -> u64
    ensures { result ≡ volt_reading model count }
{
    let l = limits_of(model);
    reading(count, l.volts)
}

// The ampere reading of a count, in mA.
#[tactic(auto, unfolding(crate::specs::Models::amp_reading))]
pub fn amp_reading(model: u8, count: u16) -> u64
    ensures { result ≡ amp_reading model count }
{
    let l = limits_of(model);
    reading(count, l.amps)
}

// Both readings of a sample of two counts, with a single table look-up.
#[tactic(auto, unfolding(crate::specs::Models::volt_reading, crate::specs::Models::amp_reading))]
pub fn readings_of(model: u8, v: u16, a: u16) -> Readings
    ensures { (result.volts ≡ volt_reading model v) × (result.amps ≡ amp_reading model a) }
{
    let l = limits_of(model);
    Readings {
        volts: reading(v, l.volts),
        amps: reading(a, l.amps),
    }
}
