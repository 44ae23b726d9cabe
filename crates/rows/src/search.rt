// The rows of the search: phases 1 to 5.
#![tactic(auto, unfolding(rules::specs::Rows::row1, rules::specs::Rows::row2, rules::specs::Rows::row3, rules::specs::Rows::row4, rules::specs::Rows::row5))]

ghost use Rattle.std.specs.Prelude.{◌≡◌, true, ◌<◌};
ghost use Rattle.rules.specs.Rows.{row1, row2, row3, row4, row5};

use crate::{commit, plan};
use locks::lock;
use rules::row::{Plan, View};

// Prev none, walk = root.
pub(crate) fn row_1(v: View) -> Plan
    ensures { result ≡ row1 v }
{
    plan::searches(v, registers::set_prev(places::NONE, v.thread), v.root)
}

// Prev = walk, walk = its child by the operation's key.
pub(crate) fn row_2(v: View) -> Plan
    ensures { result ≡ row2 v }
{
    let t = registers::set_prev(v.thread.walk, v.thread);
    plan::searches(v, t, places::child_by(v.thread.key, v.walk))
}

// B free: take.
pub(crate) fn row_3(v: View) -> Plan
    ensures { result ≡ row3 v }
{
    let taken = lock::take_free(v.me, v.settings, v.base.lock);
    plan::takes(v, plan::at(v.thread.base, v.base), taken, 5, 4)
}

// B free: take; held: waits.
pub(crate) fn row_4(v: View) -> Plan
    ensures { result ≡ row4 v }
{
    let taken = lock::take_contended(v.me, v.settings, v.base.lock);
    plan::takes(v, plan::at(v.thread.base, v.base), taken, 5, 4)
}

// B invalid: release B; valid: commit, then decide. With nothing left to commit the step is stuck, and nobody asks for its plan.
pub(crate) fn row_5(v: View) -> Plan
    ensures { (v.base.valid ≡ true → v.committed < v.begun) → result ≡ row5 v }
{
    if !v.base.valid {
        plan::puts(v, 1, plan::at(v.thread.base, places::release(v.base)))
    } else if v.committed < v.begun {
        commit::decides(v, places::with_keys(commit::keys_then(v), v.base))
    } else {
        plan::only(v, v.thread)
    }
}
