// A thread's phase is the step it takes next: from the phase to its row.
// Phases stay numbers, grouped by ranges: the project fixes both, and a thread's record may hold any number.
#![tactic(auto, unfolding(rules::specs::Rows::plan_of, rules::specs::Rows::rows, rules::specs::Step::next_of))]

ghost use Rattle.std.specs.Prelude.{◌≡◌, true, ◌≤◌, ◌<◌};
ghost use Rattle.rules.specs.Rows.{plan_of};
ghost use Rattle.rules.specs.Step.{next_of};

use crate::{commit, join, neighbour, plan, search, split};
use rules::row::{Plan, View};

// The node that the rows at 1, 2, 9, 10 and 22 go to or ask for.
pub fn next(v: View) -> u8
    ensures { result ≡ next_of v }
{
    match v.thread.phase {
        1 => v.root,
        2 => places::child_by(v.thread.key, v.walk),
        9 => places::child_on(neighbour::far_side(v), v.prev),
        10 | 22 => neighbour::near_child(v),
        _ => places::NONE,
    }
}

// Phases 1 to 5.
fn search_row(v: View) -> Plan
    requires { (1 ≤ v.thread.phase) × (v.thread.phase ≤ 5) }
    ensures { (v.thread.phase ≡ 5 → v.base.valid ≡ true → v.committed < v.begun) → result ≡ plan_of v }
{
    match v.thread.phase {
        1 => search::row_1(v),
        2 => search::row_2(v),
        3 => search::row_3(v),
        4 => search::row_4(v),
        5 => search::row_5(v),
        _ => unreachable!(),
    }
}

// Phases 6 to 8.
fn split_row(v: View) -> Plan
    requires { (6 ≤ v.thread.phase) × (v.thread.phase ≤ 8) }
    ensures { result ≡ plan_of v }
{
    match v.thread.phase {
        6 => split::row_6(v),
        7 => split::row_7(v),
        8 => split::row_8(v),
        _ => unreachable!(),
    }
}

// Phases 9 to 14.
fn neighbour_row(v: View) -> Plan
    requires { (9 ≤ v.thread.phase) × (v.thread.phase ≤ 14) }
    ensures { result ≡ plan_of v }
{
    match v.thread.phase {
        9 => neighbour::row_9(v),
        10 => neighbour::row_10(v),
        11 => neighbour::row_11(v),
        12 => neighbour::row_12(v),
        13 => neighbour::row_13(v),
        14 => neighbour::row_14(v),
        _ => unreachable!(),
    }
}

// Phases 15 to 20.
fn splice_row(v: View) -> Plan
    requires { (15 ≤ v.thread.phase) × (v.thread.phase ≤ 20) }
    ensures { result ≡ plan_of v }
{
    match v.thread.phase {
        15 => join::row_15(v),
        16 => join::row_16(v),
        17 => join::row_17(v),
        18 => join::row_18(v),
        19 => join::row_19(v),
        20 => join::row_20(v),
        _ => unreachable!(),
    }
}

// Phases 21 to 24.
fn link_row(v: View) -> Plan
    requires { (21 ≤ v.thread.phase) × (v.thread.phase ≤ 24) }
    ensures { result ≡ plan_of v }
{
    match v.thread.phase {
        21 => join::row_21(v),
        22 => join::row_22(v),
        23 => join::row_23(v),
        24 => join::row_24(v),
        _ => unreachable!(),
    }
}

// The plan of the step that the thread takes next; an idle thread changes nothing. At a commit it says what is right where committed < begun.
pub fn plan_of(v: View) -> Plan
    ensures { (v.thread.phase ≡ 5 → v.base.valid ≡ true → v.committed < v.begun) → result ≡ plan_of v }
{
    match v.thread.phase {
        1..=5 => search_row(v),
        6..=8 => split_row(v),
        9..=14 => neighbour_row(v),
        15..=20 => splice_row(v),
        21..=24 => link_row(v),
        25 => join::row_25(v),
        _ => plan::only(v, v.thread),
    }
}
