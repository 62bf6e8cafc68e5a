// A type that says nothing of the fitting list, as a later program may.
ghost use Rattle.engine.specs.Engine.{full_at};

use super::Works;
use cycles::CycleOutcome;
use slots::Rack;

struct Cycles;

impl Works for Cycles {
    ghost stop = { full_at 7680 };

    ghost room = { 8192 };

    fn cycle(&self, r: &Rack, s: &[u8], out: &mut [u8]) -> CycleOutcome {
        cycles::cycle(*r, s, out)
    }
}

#[test]
fn list_is_taken_by_fit(rt: HostRuntime) {
    let mut list = [255; 31];
    list[6] = 3;
    let models = Cycles.fit(&list).map(|rack| rack.setup.models);
    assert_eq!(rt; models, Ok(list));
    let short = Cycles.fit(&list[..30]).map(|rack| rack.setup.models);
    assert_eq!(rt; short, Err(field::Refusal::BadList));
}
