// Layer rack.
// A global in code: an order to every fitted slot; each supply judges it for itself.
#![tactic(auto)]

ghost use Rattle.std.specs.Prelude.{◌≡◌};
ghost use Rattle.base.specs.Lists.{each_to};
ghost use Rattle.globals.specs.Globals.{ordered_at};

use supply::{Order, Supply};
use wire::Setup;

// Gives an order to every fitted slot. Most globals set a setting, so this case takes a shorter path.
pub fn order_all(u: Setup, mut slots: [Supply; 31], o: Order) -> [Supply; 31]
    ensures { result ≡ each_to (ordered_at u o) 31 slots }
{
    for i in 0..31 {
        let model = u.models[i];
        if model == 255 {
            continue;
        }
        let s = slots[i];
        if let Order::Set(t, n) = o {
            slots[i] = acts::obey_set(model, s, t, n).unwrap_or(s);
            continue;
        }
        slots[i] = acts::obey_order(model, s, o).unwrap_or(s);
    }
    slots
}
