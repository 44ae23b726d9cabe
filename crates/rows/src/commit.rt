// The commit of an operation at phase 5, and the decision that follows.
#![tactic(auto, unfolding(rules::specs::Rows::commits, rules::specs::Rows::decides))]

ghost use Rattle.std.specs.Prelude.{◌≡◌, ◌+◌, ◌<◌, ltb};
ghost use Rattle.keys.specs.Keys.{size};
ghost use Rattle.rules.specs.Places.{answer_of, keys_after};
ghost use Rattle.rules.specs.Rows.{keys_then, commits, decides};

use crate::plan;
use rules::row::{Plan, View};
use rules::state::Place;

// The answer of operation `o` on a key that is or is not present. No enum: a thread may hold any operation number, and `thread_in_range` answers for it.
fn answer_of(o: u8, present: bool) -> u8
    ensures { result ≡ answer_of o present }
{
    match o {
        0 => u8::from(!present),
        _ => u8::from(present),
    }
}

// The keys after operation `o` on key `k`.
fn keys_after(o: u8, ks: u64, k: u8) -> u64
    ensures { result ≡ keys_after o ks k }
{
    match o {
        0 => keys::with(ks, k),
        1 => keys::without(ks, k),
        _ => ks,
    }
}

// B's keys after the operation.
pub(crate) fn keys_then(v: View) -> u64
    ensures { result ≡ keys_then v }
{
    keys_after(v.thread.operation, places::keys_of(v.base), v.thread.key)
}

// B has fewer than 2 keys after the operation.
fn few_then(v: View) -> bool
    ensures { result ≡ ltb (size (keys_then v)) 2 }
{
    keys::size(keys_then(v)) < 2
}

// The commit: B becomes `b`, the thread goes to phase `p`. Each contract here asks for committed < begun, and no type has it: `plan_of` answers any
// caller, and promises its plan where it holds.
fn commits(v: View, p: u8, b: Place) -> Plan
    requires { v.committed < v.begun }
    ensures { result ≡ commits v p b }
{
    let next = v.committed + 1;
    let t = v.thread;
    let present = keys::has(places::keys_of(v.base), t.key);
    let answered = registers::set_answer(answer_of(t.operation, present), next, t);
    let stored = plan::at(t.base, b);
    Plan {
        committed: next,
        ..plan::stores(v, registers::at_phase(p, answered), stored)
    }
}

// Decide: above max to 6, below min to 9, or 25.
pub(crate) fn decides(v: View, b: Place) -> Plan
    requires { v.committed < v.begun }
    ensures { result ≡ decides v b }
{
    if ready::above_max(v) {
        if few_then(v) {
            commits(v, 25, places::zero(b))
        } else {
            commits(v, 6, b)
        }
    } else if !ready::below_min(v) {
        commits(v, 25, b)
    } else if v.thread.prev == places::NONE {
        commits(v, 25, places::zero(b))
    } else {
        commits(v, 9, b)
    }
}
