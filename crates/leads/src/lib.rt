// Layer wiring.
// The lead adviser: table 2-2 of the manual, how long a lead of a gauge may be, and a gauge for a lead of some length;
// and both answers as numbers, for programs in C or Rust.
#![tactic(auto)]

ghost use Rattle.std.specs.Prelude.{◌≡◌, ◌<◌, ◌≤◌};
ghost use Rattle.leads.specs.Gauges.{listing_of, in_range, within_limit};
ghost use Rattle.leads.specs.Refusal.{refusal_number};
ghost use Rattle.leads.specs.Longest.{longest_of, lead_numbers};
ghost use Rattle.leads.specs.Advice.{Suitable, named_of, chosen, advice_of, gauge_numbers};

// A row of the table: a gauge, and its resistance in tenths of a milliohm per km.
#[derive(Clone, Copy)]
struct Row {
    gauge: u64,
    resistance: u64,
}

const TABLE: [Row; 8] = [
    Row {
        gauge: 14,
        resistance: 82_870,
    },
    Row {
        gauge: 12,
        resistance: 52_130,
    },
    Row {
        gauge: 10,
        resistance: 32_789,
    },
    Row {
        gauge: 8,
        resistance: 20_620,
    },
    Row {
        gauge: 6,
        resistance: 12_969,
    },
    Row {
        gauge: 4,
        resistance: 8156,
    },
    Row {
        gauge: 2,
        resistance: 5131,
    },
    Row {
        gauge: 0,
        resistance: 3225,
    },
];

// The greatest current, in mA.
const MOST_MA: u64 = 150_000;

// The greatest length, in mm.
const MOST_MM: u64 = 1_000_000;

// Why there is no longest lead, or no gauge: the gauge is not listed, the current or the length is out of range, or no
// listed gauge suits.
#[derive(Clone, Copy, Debug, PartialEq, Eq)]
pub enum LeadRefusal {
    NotListed,
    OutOfRange,
    NoneSuits,
}

// The number that the paper gives each refusal.
impl From<LeadRefusal> for u8 {
    fn from(refusal: LeadRefusal) -> u8
        ensures { result ≡ refusal_number refusal }
    {
        match refusal {
            LeadRefusal::NotListed => 9,
            LeadRefusal::OutOfRange => 10,
            LeadRefusal::NoneSuits => 11,
        }
    }
}

// The longest lead as numbers, since no enum crosses to C: code 0 and the metres, or the refusal and 0.0.
#[repr(C)]
#[derive(Clone, Copy)]
pub struct LongestLead {
    pub code: u8,
    pub metres: f64,
}

// A gauge as numbers, for C too: code 0 and the gauge, or the refusal and 255, which is not listed.
#[repr(C)]
#[derive(Clone, Copy)]
pub struct GaugeFor {
    pub code: u8,
    pub gauge: u64,
}

// The resistance of a listed gauge.
fn look_up(gauge: u64) -> Option<u64>
    ensures { result ≡ listing_of gauge }
{
    TABLE
        .iter()
        .find(|row| row.gauge == gauge)
        .map(|row| row.resistance)
}

// Whether n is from 1 to the most.
fn in_range(n: u64, most: u64) -> bool
    ensures { result ≡ in_range most n }
{
    (1..=most).contains(&n)
}

// How long a lead of this gauge may be at this current, in mA.
pub fn longest_lead(gauge: u64, ma: u64) -> Result<f64, LeadRefusal>
    ensures { result ≡ longest_of gauge ma }
{
    let resistance = look_up(gauge).ok_or(LeadRefusal::NotListed)?;
    if in_range(ma, MOST_MA) {
        Ok(quotients::quotient(10_000_000_000, ma * resistance))
    } else {
        Err(LeadRefusal::OutOfRange)
    }
}

// Whether a lead drops no more than a volt, of any resistance up to 100,000,000; no product then overflows.
fn within_limit(ma: u64, resistance: u64, mm: u64) -> bool
    requires { (ma ≤ 150000) × ((resistance ≤ 100000000) × (mm ≤ 1000000)) }
    ensures { result ≡ within_limit ma resistance mm }
{
    ma * resistance * mm <= 10_000_000_000_000
}

// Some gauge that suits, for a current and a length within their ranges.
fn choose(ma: u64, mm: u64) -> Result<u64, LeadRefusal>
    requires { (ma ≤ 150000) × (mm ≤ 1000000) }
    ensures { (result ≡ chosen ma mm (named_of result)) × (Suitable ma mm (named_of result)) }
{
    for row in &TABLE {
        if within_limit(ma, row.resistance, mm) {
            return Ok(row.gauge);
        }
    }
    Err(LeadRefusal::NoneSuits)
}

// A gauge for a lead of this length, in mm, at this current, in mA. Which of those that suit is left free.
pub fn gauge_for(ma: u64, mm: u64) -> Result<u64, LeadRefusal>
    ensures { (result ≡ advice_of ma mm (named_of result)) × (Suitable ma mm (named_of result)) }
{
    if in_range(ma, MOST_MA) && in_range(mm, MOST_MM) {
        choose(ma, mm)
    } else {
        Err(LeadRefusal::OutOfRange)
    }
}

// `longest_lead` as numbers.
pub fn pu_longest_lead(gauge: u64, ma: u64) -> LongestLead
    ensures { result ≡ lead_numbers (longest_of gauge ma) }
{
    match longest_lead(gauge, ma) {
        Ok(metres) => LongestLead { code: 0, metres },
        Err(refusal) => LongestLead {
            code: u8::from(refusal),
            metres: 0.0,
        },
    }
}

// `gauge_for` as numbers.
pub fn pu_gauge_for(ma: u64, mm: u64) -> GaugeFor
    ensures { (result ≡ gauge_numbers (advice_of ma mm result.gauge)) × (Suitable ma mm result.gauge) }
{
    match gauge_for(ma, mm) {
        Ok(gauge) => GaugeFor { code: 0, gauge },
        Err(refusal) => GaugeFor {
            code: u8::from(refusal),
            gauge: 255,
        },
    }
}
