// The rows of a split: phases 6 to 8.
#![tactic(auto, unfolding(rules::specs::Rows::no_split, rules::specs::Rows::split, rules::specs::Rows::row6, rules::specs::Rows::row7, rules::specs::Rows::row8))]

ghost use Rattle.std.specs.Prelude.{◌≡◌, ◌≤◌};
ghost use Rattle.rules.specs.Rows.{no_split, split, row6, row7, row8};

use crate::plan;
use rules::row::{Plan, View};
use rules::state::Body;

// Fewer than 3 places: B's statistics 0.
fn no_split(v: View) -> Plan
    ensures { result ≡ no_split v }
{
    plan::puts(v, 25, plan::at(v.thread.base, places::zero(v.base)))
}

// Make left base, right base, route in that order.
fn split(v: View) -> Plan
    requires { v.made ≤ 125 }
    ensures { result ≡ split v }
{
    let left = v.made;
    let right = left + 1;
    let route = left + 2;
    let ks = places::keys_of(v.base);
    let key = keys::split_key(ks);
    let low = Body::Base {
        keys: keys::below(ks, key),
    };
    let high = Body::Base {
        keys: keys::from(ks, key),
    };
    let top = Body::Route { key, left, right };
    let t = registers::at_phase(7, registers::set_made(route, v.thread));
    Plan {
        made: left + 3,
        first: Some(plan::at(left, places::new_node(low))),
        second: Some(plan::at(right, places::new_node(high))),
        third: Some(plan::at(route, places::new_node(top))),
        ..plan::only(v, t)
    }
}

// Split, if there are 3 places.
pub(crate) fn row_6(v: View) -> Plan
    ensures { result ≡ row6 v }
{
    if v.made <= 125 { split(v) } else { no_split(v) }
}

// The new route takes B's place under P, or as root if P is none.
pub(crate) fn row_7(v: View) -> Plan
    ensures { result ≡ row7 v }
{
    let t = registers::at_phase(8, v.thread);
    plan::hangs(v, t, t.made, t.base, plan::at(t.prev, v.prev))
}

// B invalid.
pub(crate) fn row_8(v: View) -> Plan
    ensures { result ≡ row8 v }
{
    plan::puts(v, 25, plan::at(v.thread.base, places::invalid(v.base)))
}
