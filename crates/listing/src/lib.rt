// The key list: a walk of the routes from the root, the left child first, down to each base.
#![tactic(auto)]

ghost use Rattle.std.specs.Prelude.{◌≡◌, ◌<◌, []};
ghost use Rattle.listing.specs.Gathered.{Counted, Gathered};
ghost use Rattle.keys.specs.Keys.{list_of};
ghost use Rattle.rules.specs.Refusals.{first, reply_number, refusal_of};
ghost use Rattle.rules.specs.List.{unmet, again, meets, lists, reached, list_order, key_list_of};
ghost use Rattle.rules.specs.Answers.{list_values};

use rules::answer::Refusal;
use rules::list::Met;
use rules::state::{Body, Place, State};

// Nothing is met yet.
#[tactic(auto, unfolding(rules::specs::List::unmet))]
fn unmet() -> Met
    ensures { result ≡ unmet }
{
    Met {
        twice: false,
        left: 128,
        keys: 0,
        seen: [false; 128],
    }
}

// A node was met a second time.
#[tactic(auto, unfolding(rules::specs::List::again))]
fn again(m: Met) -> Met
    ensures { result ≡ again m }
{
    Met { twice: true, ..m }
}

// Node `n` is met for the first time.
#[tactic(auto, unfolding(rules::specs::List::meets))]
fn meets(n: u8, m: Met) -> Met
    requires { (n < 128) × (0 < m.left) }
    ensures { result ≡ meets n m }
{
    let mut met = m;
    met.seen[n as usize] = true;
    met.left -= 1;
    met
}

// The keys of a base are listed.
#[tactic(auto, unfolding(rules::specs::List::lists))]
fn lists(keys: u64, m: Met) -> Met
    ensures { result ≡ lists keys m }
{
    Met {
        keys: keys::union(m.keys, keys),
        ..m
    }
}

// The walk at node `n`.
fn gather(places: &[Place; 128], n: u8, m: Met) -> Met
    requires { Counted m }
    ensures { Gathered places.now n m result }
{
    if m.twice {
        return m;
    }
    let at = n % 128;
    let i = at as usize;
    if m.seen[i] {
        return again(m);
    }
    let met = meets(at, m);
    match places[i].body {
        Body::Base { keys } => lists(keys, met),
        Body::Route { left, right, .. } => gather(places, right, gather(places, left, met)),
    }
}

// What the walk from the root has met.
fn reached(s: &State) -> Met
    ensures { result ≡ reached s.now }
{
    gather(&s.places, s.root, unmet())
}

// The keys of the bases reachable from the root.
#[tactic(auto, unfolding(rules::specs::List::key_list_of))]
pub fn key_list(s: &State) -> Result<u64, Refusal>
    ensures answer { result ≡ key_list_of s.now }
    ensures number { reply_number result ≡ refusal_of (list_order s.now) }
    ensures values { list_values result ≡ first (list_order s.now) (λ n. []) (list_of (reached s.now).keys) }
{
    if !range::in_range(s) {
        return Err(Refusal::OutOfRange);
    }
    let m = reached(s);
    if m.twice {
        return Err(Refusal::Stuck);
    }
    Ok(m.keys)
}
