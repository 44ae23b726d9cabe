// From the state to what a step reads, and from its plan back to the state.
ghost use Rattle.std.specs.Prelude.{◌≡◌, ◌<◌};
ghost use Rattle.rules.specs.State.{zero_place, place_at};
ghost use Rattle.rules.specs.Step.{view_before, view_of, put};
ghost use Rattle.machine.specs.InPlace.{stored, found, placed};

use rows::phase;
use rules::row::{Plan, Store, View};
use rules::state::{Body, Lock, Place, State};

// What stands for the node that a step walks to until it is known, and what no row looks at.
fn zero_place() -> Place
    ensures { result ≡ zero_place }
{
    Place {
        lock: Lock {
            holder: 0,
            statistics: 0,
        },
        valid: false,
        body: Body::Base { keys: 0 },
    }
}

// The place of the node that a register names; of a register that is none, some place.
#[tactic(auto, unfolding(rules::specs::State::place_at))]
fn place_at(s: &State, n: u8) -> Place
    ensures { result ≡ place_at s.now n }
{
    s.places[(n % 128) as usize]
}

// What the step of thread `t` reads, but for the node that it walks to.
#[tactic(auto, unfolding(rules::specs::Step::view_before, rules::specs::State::thread_at))]
fn look(s: &State, t: u32) -> View
    requires { t < 8 }
    ensures { result ≡ view_before s.now t }
{
    let thread = s.threads[t as usize];
    View {
        me: t as u8,
        thread,
        settings: s.settings,
        root: s.root,
        made: s.made,
        begun: s.begun,
        committed: s.committed,
        prev: place_at(s, thread.prev),
        base: place_at(s, thread.base),
        walk: place_at(s, thread.walk),
        neighbour: place_at(s, thread.neighbour),
        grandparent: place_at(s, thread.grandparent),
        own: place_at(s, thread.made),
        reached: zero_place(),
    }
}

// What the step of thread `t` reads. The node that it walks to follows from the rest.
pub(crate) fn view(s: &State, t: u32) -> View
    requires { t < 8 }
    ensures { result ≡ view_of s.now t }
{
    let before = look(s, t);
    View {
        reached: place_at(s, phase::next(before)),
        ..before
    }
}

// A place is stored, if there is one to be stored.
#[tactic(auto, unfolding(rules::specs::Step::put))]
fn store(places: &mut [Place; 128], a: Option<Store>)
    ensures loaded { places.new ≡ placed a (stored a (found a places.old)) places.old }
    ensures put { places.new ≡ put a places.old }
{
    if let Some(Store { at, place }) = a {
        if at < 128 {
            places[at as usize] = place;
        }
    }
}

// The state after the plan of thread `t`'s step.
pub(crate) fn apply(s: &mut State, t: u32, p: Plan)
    requires { t < 8 }
    ensures { s.new ≡ Rattle.rules.specs.Step.apply s.old t p }
{
    store(&mut s.places, p.first);
    store(&mut s.places, p.second);
    store(&mut s.places, p.third);
    s.threads[t as usize] = p.thread;
    s.root = p.root;
    s.made = p.made;
    s.committed = p.committed;
}
