// The range test: every number inside document 01's limits.
#![tactic(auto, unfolding(rules::specs::Range::settings_in_range, rules::specs::Range::body_in_range, rules::specs::Range::place_in_range, rules::specs::Range::register_in_range, rules::specs::Range::registers_in_range, rules::specs::Range::thread_in_range, rules::specs::Range::counts_in_range, rules::specs::Range::in_range))]

ghost use Rattle.std.specs.Prelude.{◌≡◌};
ghost use Rattle.rules.specs.Range.{settings_in_range, body_in_range, place_in_range, register_in_range, registers_in_range, thread_in_range, places_in_range, threads_in_range, counts_in_range, in_range};

use rules::state::{Body, Place, Settings, State, Thread};

// The most that the setting succ or fail is.
const TOP_CHANGE: u32 = 1000;

// How far the settings min and max may lie from 0.
const TOP_BOUND: u32 = 1000000;

// The most operations that are begun, and so the last commit number.
const TOP_COMMIT: u32 = 1000000;

const TOP_KEY: u8 = 63;

// How many places there are, and the node register that names none of them.
const PLACES: u8 = 128;

pub fn settings_in_range(c: Settings) -> bool
    ensures { result ≡ settings_in_range c }
{
    (c.succ <= TOP_CHANGE) & (c.fail <= TOP_CHANGE) & (c.low <= TOP_BOUND) & (c.max <= TOP_BOUND)
}

// The statistics are asked of a base alone.
fn body_in_range(made: u8, statistics: u32, b: Body) -> bool
    ensures { result ≡ body_in_range made statistics b }
{
    match b {
        Body::Base { keys: _ } => statistics <= 4000000,
        Body::Route { key, left, right } => (key <= TOP_KEY) & (left < made) & (right < made),
    }
}

fn place_in_range(made: u8, p: Place) -> bool
    ensures { result ≡ place_in_range made p }
{
    (p.lock.holder <= 8) & body_in_range(made, p.lock.statistics, p.body)
}

fn register_in_range(made: u8, r: u8) -> bool
    ensures { result ≡ register_in_range made r }
{
    (r == PLACES) | (r < made)
}

fn registers_in_range(made: u8, t: Thread) -> bool
    ensures { result ≡ registers_in_range made t }
{
    register_in_range(made, t.prev)
        & register_in_range(made, t.base)
        & register_in_range(made, t.walk)
        & register_in_range(made, t.neighbour)
        & register_in_range(made, t.grandparent)
        & register_in_range(made, t.made)
}

fn thread_in_range(made: u8, t: Thread) -> bool
    ensures { result ≡ thread_in_range made t }
{
    (t.phase <= 25)
        & (t.operation <= 2)
        & (t.key <= TOP_KEY)
        & (t.answer <= 1)
        & (t.commit <= TOP_COMMIT)
        & registers_in_range(made, t)
}

// Each place. That the threads have the same line is no reason for a function that takes the test.
fn places_in_range(made: u8, places: &[Place]) -> bool
    ensures { result ≡ places_in_range made places.now }
{
    places.iter().all(|p| place_in_range(made, *p))
}

// Each thread.
fn threads_in_range(made: u8, threads: &[Thread]) -> bool
    ensures { result ≡ threads_in_range made threads.now }
{
    threads.iter().all(|t| thread_in_range(made, *t))
}

// The counts and the root.
fn counts_in_range(s: &State) -> bool
    ensures { result ≡ counts_in_range s.now }
{
    (1 <= s.made)
        & (s.made <= PLACES)
        & (s.begun <= TOP_COMMIT)
        & (s.committed <= s.begun)
        & (s.root < s.made)
}

// Refusal 7 is given exactly where this is false.
pub fn in_range(s: &State) -> bool
    ensures { result ≡ in_range s.now }
{
    settings_in_range(s.settings)
        & counts_in_range(s)
        & places_in_range(s.made, &s.places)
        & threads_in_range(s.made, &s.threads)
}
