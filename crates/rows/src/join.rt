// The rows of a join from the search for G to the link, and the end: phases 15 to 25.
#![tactic(auto, unfolding(rules::specs::Rows::row15, rules::specs::Rows::row16, rules::specs::Rows::row17, rules::specs::Rows::row18, rules::specs::Rows::row19, rules::specs::Rows::row20, rules::specs::Rows::row21, rules::specs::Rows::row22, rules::specs::Rows::row23, rules::specs::Rows::row24, rules::specs::Rows::row25))]

ghost use Rattle.std.specs.Prelude.{◌≡◌, cond, nat_eq};
ghost use Rattle.rules.specs.Registers.{at_phase, set_walk, set_grandparent};
ghost use Rattle.rules.specs.Rows.{only, far_child, towards_prev, row15, row16, row17, row18, row19, row20, row21, row22, row23, row24, row25};

use crate::{neighbour, plan};
use locks::lock;
use places::NONE;
use rules::row::{Plan, View};

// P's far child by the kept side.
fn far_child(v: View) -> u8
    ensures { result ≡ far_child v }
{
    places::child_on(v.thread.side, v.prev)
}

// Walk's child by P's key.
fn towards_prev(v: View) -> u8
    ensures { result ≡ towards_prev v }
{
    places::child_by(places::route_key(v.prev), v.walk)
}

// G = `g`, walk = `w`: phase `met` if that is P, else 16.
fn nears(v: View, g: u8, w: u8, met: u8) -> Plan
    ensures { result ≡ only v (at_phase (cond (nat_eq w v.thread.prev) met 16)
        (set_walk w (set_grandparent g v.thread))) }
{
    let phase = if w == v.thread.prev { met } else { 16 };
    plan::walks(v, registers::set_grandparent(g, v.thread), w, phase)
}

// G none, walk = root.
pub(crate) fn row_15(v: View) -> Plan
    ensures { result ≡ row15 v }
{
    nears(v, NONE, v.root, 19)
}

// G = walk, walk = its child by P's key.
pub(crate) fn row_16(v: View) -> Plan
    ensures { result ≡ row16 v }
{
    nears(v, v.thread.walk, towards_prev(v), 17)
}

// G free: take; held: waits.
pub(crate) fn row_17(v: View) -> Plan
    ensures { result ≡ row17 v }
{
    let taken = lock::try_lock(v.me, v.grandparent.lock);
    let g = plan::at(v.thread.grandparent, v.grandparent);
    plan::takes(v, g, taken, 18, 17)
}

// G invalid: release G.
pub(crate) fn row_18(v: View) -> Plan
    ensures { result ≡ row18 v }
{
    if v.grandparent.valid {
        plan::goes(v, 19)
    } else {
        let released = places::release(v.grandparent);
        plan::puts(v, 15, plan::at(v.thread.grandparent, released))
    }
}

// P's far child takes P's place under G, or as root.
pub(crate) fn row_19(v: View) -> Plan
    ensures { result ≡ row19 v }
{
    let t = registers::at_phase(20, v.thread);
    let g = plan::at(t.grandparent, v.grandparent);
    plan::hangs(v, t, far_child(v), t.prev, g)
}

// Release P, and G if there is one.
pub(crate) fn row_20(v: View) -> Plan
    ensures { result ≡ row20 v }
{
    let g = plan::at(v.thread.grandparent, places::release(v.grandparent));
    Plan {
        first: Some(plan::at(v.thread.prev, places::release(v.prev))),
        second: (g.at != NONE).then_some(g),
        ..plan::goes(v, 21)
    }
}

// P's far child is N: walk = G; else walk = that child.
pub(crate) fn row_21(v: View) -> Plan
    ensures { result ≡ row21 v }
{
    let far = far_child(v);
    if far == v.thread.neighbour {
        plan::walks(v, v.thread, v.thread.grandparent, 23)
    } else {
        plan::walks(v, v.thread, far, 22)
    }
}

// Walk's near-way child a base: nothing changes; else walk = that child.
pub(crate) fn row_22(v: View) -> Plan
    ensures { result ≡ row22 v }
{
    if places::is_route(v.reached) {
        plan::walks(v, v.thread, neighbour::near_child(v), 22)
    } else {
        plan::goes(v, 23)
    }
}

// The made base takes N's place under walk, or as root.
pub(crate) fn row_23(v: View) -> Plan
    ensures { result ≡ row23 v }
{
    let t = registers::at_phase(24, v.thread);
    plan::hangs(v, t, t.made, t.neighbour, plan::at(t.walk, v.walk))
}

// Release N.
pub(crate) fn row_24(v: View) -> Plan
    ensures { result ≡ row24 v }
{
    plan::puts(
        v,
        25,
        plan::at(v.thread.neighbour, places::release(v.neighbour)),
    )
}

// Release B; the operation ends, the thread is as fresh.
pub(crate) fn row_25(v: View) -> Plan
    ensures { result ≡ row25 v }
{
    let released = plan::at(v.thread.base, places::release(v.base));
    plan::stores(v, registers::fresh_thread(), released)
}
