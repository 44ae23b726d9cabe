// What a row changes, put together.
#![tactic(auto, unfolding(rules::specs::Rows::hangs, rules::specs::Rows::searches, rules::specs::Rows::seeks))]

ghost use Rattle.std.specs.Prelude.{◌≡◌, cond, Some};
ghost use Rattle.rules.specs.Registers.{at_phase, set_walk};
ghost use Rattle.rules.specs.Places.{is_free, with_lock};
ghost use Rattle.rules.specs.Rows.{stores1, only, goes, hangs, searches, seeks};

use places::NONE;
use rules::row::{Plan, Store, View};
use rules::state::{Lock, Place, Thread};

// The place of node `n`, as read or to be stored.
pub(crate) fn at(n: u8, p: Place) -> Store
    ensures { Some result ≡ Rattle.rules.specs.Rows.at n p }
{
    Store { at: n, place: p }
}

// The thread alone.
pub(crate) fn only(v: View, t: Thread) -> Plan
    ensures { result ≡ only v t }
{
    Plan {
        thread: t,
        root: v.root,
        made: v.made,
        committed: v.committed,
        first: None,
        second: None,
        third: None,
    }
}

// The thread and one place.
pub(crate) fn stores(v: View, t: Thread, a: Store) -> Plan
    ensures { result ≡ stores1 v t (Some a) }
{
    Plan {
        first: Some(a),
        ..only(v, t)
    }
}

// The phase and one place.
pub(crate) fn puts(v: View, p: u8, a: Store) -> Plan
    ensures { result ≡ stores1 v (at_phase p v.thread) (Some a) }
{
    stores(v, registers::at_phase(p, v.thread), a)
}

// The phase alone.
pub(crate) fn goes(v: View, p: u8) -> Plan
    ensures { result ≡ goes v p }
{
    only(v, registers::at_phase(p, v.thread))
}

// `node` free: its lock as taken, and phase `then`; held: phase `held`.
pub(crate) fn takes(v: View, node: Store, taken: Lock, then: u8, held: u8) -> Plan
    ensures { result ≡ cond (is_free node.place)
        (stores1 v (at_phase then v.thread) (Rattle.rules.specs.Rows.at node.at (with_lock taken node.place)))
        (goes v held) }
{
    if places::is_free(node.place) {
        let taken = places::with_lock(taken, node.place);
        puts(v, then, at(node.at, taken))
    } else {
        goes(v, held)
    }
}

// `new` takes the place of `x` under the route `y`, or as root if `y` is none.
pub(crate) fn hangs(v: View, t: Thread, new: u8, x: u8, y: Store) -> Plan
    ensures { result ≡ hangs v t new x y.at y.place }
{
    if y.at == NONE {
        Plan {
            root: new,
            ..only(v, t)
        }
    } else {
        stores(v, t, at(y.at, places::takes_place(x, new, y.place)))
    }
}

// Walk = `w`, and phase `p`.
pub(crate) fn walks(v: View, t: Thread, w: u8, p: u8) -> Plan
    ensures { result ≡ only v (at_phase p (set_walk w t)) }
{
    only(v, registers::at_phase(p, registers::set_walk(w, t)))
}

// The search's walk goes to `w`.
pub(crate) fn searches(v: View, t: Thread, w: u8) -> Plan
    ensures { result ≡ searches v t w }
{
    if places::is_route(v.reached) {
        walks(v, t, w, 2)
    } else {
        walks(v, registers::set_base(w, t), w, 3)
    }
}

// The walk to the neighbour goes to `w`. One function for this and `searches` would take both phases and what else to set: no plainer.
pub(crate) fn seeks(v: View, t: Thread, w: u8) -> Plan
    ensures { result ≡ seeks v t w }
{
    let phase = if places::is_route(v.reached) { 10 } else { 11 };
    walks(v, t, w, phase)
}
