// Whether the step of a thread has what its row needs: a step that has not is stuck.
// Phases stay numbers, grouped by ranges: the project fixes both, and a thread's record may hold any number.
#![tactic(auto)]

ghost use Rattle.std.specs.Prelude.{◌≡◌, ◌≤◌, get_or};
ghost use Rattle.rules.specs.Rows.{above_max, below_min};
ghost use Rattle.rules.specs.Needs.{route, base, maybe_route, commitable, needs, idle, stuck};

use places::NONE;
use rules::row::View;
use rules::state::Place;

// Statistics 0 as they are held: a u64, since statistics and a setting may pass a u32.
const ZERO_STATISTICS: u64 = 2_000_000;

// A node register, and the place that it names.
#[derive(Clone, Copy)]
struct Named(u8, Place);

impl Named {
    fn is_route(self) -> bool
        ensures { result ≡ route self.0 self.1 }
    {
        self.0 < NONE && places::is_route(self.1)
    }

    fn is_base(self) -> bool
        ensures { result ≡ base self.0 self.1 }
    {
        self.0 < NONE && !places::is_route(self.1)
    }

    fn is_none_or_route(self) -> bool
        ensures { result ≡ maybe_route self.0 self.1 }
    {
        self.0 == NONE || self.is_route()
    }
}

// One function a register: one over all of them would take two closures.
fn prev(v: View) -> Named
    ensures { (result.0 ≡ v.thread.prev) × (result.1 ≡ v.prev) }
{
    Named(v.thread.prev, v.prev)
}

fn base(v: View) -> Named
    ensures { (result.0 ≡ v.thread.base) × (result.1 ≡ v.base) }
{
    Named(v.thread.base, v.base)
}

fn walk(v: View) -> Named
    ensures { (result.0 ≡ v.thread.walk) × (result.1 ≡ v.walk) }
{
    Named(v.thread.walk, v.walk)
}

fn neighbour(v: View) -> Named
    ensures { (result.0 ≡ v.thread.neighbour) × (result.1 ≡ v.neighbour) }
{
    Named(v.thread.neighbour, v.neighbour)
}

fn grandparent(v: View) -> Named
    ensures { (result.0 ≡ v.thread.grandparent) × (result.1 ≡ v.grandparent) }
{
    Named(v.thread.grandparent, v.grandparent)
}

fn made(v: View) -> Named
    ensures { (result.0 ≡ v.thread.made) × (result.1 ≡ v.own) }
{
    Named(v.thread.made, v.own)
}

// B's statistics are above max.
pub fn above_max(v: View) -> bool
    ensures { result ≡ above_max v }
{
    ZERO_STATISTICS + u64::from(v.settings.max) < u64::from(v.base.lock.statistics)
}

// B's statistics are below min, which lies `low` below 0.
pub fn below_min(v: View) -> bool
    ensures { result ≡ below_min v }
{
    u64::from(v.base.lock.statistics) + u64::from(v.settings.low) < ZERO_STATISTICS
}

// A commit needs committed < begun, and P only below min.
fn commitable(v: View) -> bool
    ensures { result ≡ commitable v }
{
    v.committed < v.begun && (above_max(v) || !below_min(v) || prev(v).is_none_or_route())
}

// Phases 1 to 5.
#[tactic(auto, unfolding(rules::specs::Needs::needs))]
fn ready_search(v: View) -> bool
    requires { (1 ≤ v.thread.phase) × (v.thread.phase ≤ 5) }
    ensures { result ≡ get_or needs v.thread.phase idle v }
{
    match v.thread.phase {
        1 => true,
        2 => walk(v).is_route(),
        3 | 4 => base(v).is_base(),
        5 => base(v).is_base() && (!v.base.valid || commitable(v)),
        _ => unreachable!(),
    }
}

// Phases 6 to 8.
#[tactic(auto, unfolding(rules::specs::Needs::needs))]
fn ready_split(v: View) -> bool
    requires { (6 ≤ v.thread.phase) × (v.thread.phase ≤ 8) }
    ensures { result ≡ get_or needs v.thread.phase idle v }
{
    match v.thread.phase {
        6 => base(v).is_base() && 2 <= keys::size(places::keys_of(v.base)),
        7 => base(v).is_base() && prev(v).is_none_or_route() && made(v).is_route(),
        8 => base(v).is_base(),
        _ => unreachable!(),
    }
}

// Phases 9 to 14.
#[tactic(auto, unfolding(rules::specs::Needs::needs))]
fn ready_neighbour(v: View) -> bool
    requires { (9 ≤ v.thread.phase) × (v.thread.phase ≤ 14) }
    ensures { result ≡ get_or needs v.thread.phase idle v }
{
    match v.thread.phase {
        9 => prev(v).is_route() && base(v).is_base(),
        10 => walk(v).is_route(),
        11 => walk(v).is_base() && base(v).is_base(),
        12 => neighbour(v).is_base() && base(v).is_base(),
        13 => prev(v).is_route(),
        14 => prev(v).is_route() && neighbour(v).is_base() && base(v).is_base(),
        _ => unreachable!(),
    }
}

// Phases 15 to 20.
#[tactic(auto, unfolding(rules::specs::Needs::needs))]
fn ready_splice(v: View) -> bool
    requires { (15 ≤ v.thread.phase) × (v.thread.phase ≤ 20) }
    ensures { result ≡ get_or needs v.thread.phase idle v }
{
    match v.thread.phase {
        15 => prev(v).is_route(),
        16 => walk(v).is_route() && prev(v).is_route(),
        17 | 18 => grandparent(v).is_route(),
        19 | 20 => prev(v).is_route() && grandparent(v).is_none_or_route(),
        _ => unreachable!(),
    }
}

// Phases 21 to 24.
#[tactic(auto, unfolding(rules::specs::Needs::needs))]
fn ready_link(v: View) -> bool
    requires { (21 ≤ v.thread.phase) × (v.thread.phase ≤ 24) }
    ensures { result ≡ get_or needs v.thread.phase idle v }
{
    match v.thread.phase {
        21 => prev(v).is_route() && neighbour(v).is_base() && grandparent(v).is_none_or_route(),
        22 => walk(v).is_route(),
        23 => made(v).is_base() && neighbour(v).is_base() && walk(v).is_none_or_route(),
        24 => neighbour(v).is_base(),
        _ => unreachable!(),
    }
}

// "A step is stuck": a register that the row names is none where the row doesn't allow it, or of the wrong kind, or the counts forbid it.
#[tactic(auto, unfolding(rules::specs::Needs::needs, rules::specs::Needs::stuck))]
pub fn stuck(v: View) -> bool
    ensures { result ≡ stuck v }
{
    match v.thread.phase {
        1..=5 => !ready_search(v),
        6..=8 => !ready_split(v),
        9..=14 => !ready_neighbour(v),
        15..=20 => !ready_splice(v),
        21..=24 => !ready_link(v),
        25 => !base(v).is_base(),
        _ => false,
    }
}
