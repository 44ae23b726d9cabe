// The rows of a join up to its made base: phases 9 to 14.
#![tactic(auto, unfolding(rules::specs::Rows::row9, rules::specs::Rows::row10, rules::specs::Rows::row11, rules::specs::Rows::no_join, rules::specs::Rows::join, rules::specs::Rows::row12, rules::specs::Rows::row13, rules::specs::Rows::row14))]

ghost use Rattle.std.specs.Prelude.{◌≡◌, ◌≤◌};
ghost use Rattle.rules.specs.Rows.{far_side, near_child, row9, row10, row11, no_join, join, row12, row13, row14};

use crate::plan;
use locks::lock;
use rules::row::{Plan, View};
use rules::state::Body;

// Far is right if B is P's left child, else left.
pub(crate) fn far_side(v: View) -> bool
    ensures { result ≡ far_side v }
{
    places::child_on(false, v.prev) == v.thread.base
}

// Walk's child in the near way.
pub(crate) fn near_child(v: View) -> u8
    ensures { result ≡ near_child v }
{
    places::child_on(!v.thread.side, v.walk)
}

// Side fixed; walk = P's far child.
pub(crate) fn row_9(v: View) -> Plan
    ensures { result ≡ row9 v }
{
    let far = far_side(v);
    let t = registers::set_side(far, v.thread);
    plan::seeks(v, t, places::child_on(far, v.prev))
}

// Walk = its child in the near way.
pub(crate) fn row_10(v: View) -> Plan
    ensures { result ≡ row10 v }
{
    plan::seeks(v, v.thread, near_child(v))
}

// N = walk. N held: B's statistics 0; free: take. It stands by itself beside `takes`: the thread and the other way out differ.
pub(crate) fn row_11(v: View) -> Plan
    ensures { result ≡ row11 v }
{
    let t = registers::set_neighbour(v.thread.walk, v.thread);
    if places::is_free(v.walk) {
        let taken = places::with_lock(lock::try_lock(v.me, v.walk.lock), v.walk);
        plan::stores(v, registers::at_phase(12, t), plan::at(t.walk, taken))
    } else {
        let zeroed = plan::at(t.base, places::zero(v.base));
        plan::stores(v, registers::at_phase(25, t), zeroed)
    }
}

// Release N, B's statistics 0: the same place where B is N.
fn no_join(v: View) -> Plan
    ensures { result ≡ no_join v }
{
    let t = v.thread;
    let released = places::release(v.neighbour);
    let base = if t.base == t.neighbour {
        released
    } else {
        v.base
    };
    Plan {
        first: Some(plan::at(t.neighbour, released)),
        second: Some(plan::at(t.base, places::zero(base))),
        ..plan::goes(v, 25)
    }
}

// Make a base with the keys of B and N.
fn join(v: View) -> Plan
    requires { v.made ≤ 127 }
    ensures { result ≡ join v }
{
    let keys = keys::union(places::keys_of(v.base), places::keys_of(v.neighbour));
    let both = places::new_node(Body::Base { keys });
    let t = registers::at_phase(13, registers::set_made(v.made, v.thread));
    Plan {
        made: v.made + 1,
        ..plan::stores(v, t, plan::at(v.made, both))
    }
}

// Join, if N is valid and there is a place.
pub(crate) fn row_12(v: View) -> Plan
    ensures { result ≡ row12 v }
{
    if v.neighbour.valid && v.made <= 127 {
        join(v)
    } else {
        no_join(v)
    }
}

// P free: take; held: waits.
pub(crate) fn row_13(v: View) -> Plan
    ensures { result ≡ row13 v }
{
    let taken = lock::try_lock(v.me, v.prev.lock);
    let p = plan::at(v.thread.prev, v.prev);
    plan::takes(v, p, taken, 14, 13)
}

// P, N, B invalid.
pub(crate) fn row_14(v: View) -> Plan
    ensures { result ≡ row14 v }
{
    Plan {
        first: Some(plan::at(v.thread.prev, places::invalid(v.prev))),
        second: Some(plan::at(v.thread.neighbour, places::invalid(v.neighbour))),
        third: Some(plan::at(v.thread.base, places::invalid(v.base))),
        ..plan::goes(v, 15)
    }
}
