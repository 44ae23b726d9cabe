// What rows ask of a place, and what they do to one.
#![tactic(auto)]

ghost use Rattle.std.specs.Prelude.{◌≡◌};
ghost use Rattle.rules.specs.State.{new_node};
ghost use Rattle.rules.specs.Places.{is_route, keys_of, route_key, child_on, child_by, swap_body, takes_place, is_free, with_lock, release, zero, invalid, with_keys};

use locks::lock;
use rules::state::{Body, Lock, Place};

// A node register that names no node. No Option: the record holds a number, and `in_range` answers for any.
pub const NONE: u8 = 128;

pub fn is_route(p: Place) -> bool
    ensures { result ≡ is_route p }
{
    matches!(p.body, Body::Route { .. })
}

pub fn is_free(p: Place) -> bool
    ensures { result ≡ is_free p }
{
    p.lock.holder == lock::NOBODY
}

// The keys of a base; a route has none.
pub fn keys_of(p: Place) -> u64
    ensures { result ≡ keys_of p }
{
    match p.body {
        Body::Base { keys } => keys,
        Body::Route { .. } => 0,
    }
}

// The key of a route; a base has none, and no row asks it: `stuck` comes first.
pub fn route_key(p: Place) -> u8
    ensures { result ≡ route_key p }
{
    match p.body {
        Body::Base { .. } => 0,
        Body::Route { key, .. } => key,
    }
}

// The child of a route on a side: true is right.
pub fn child_on(w: bool, p: Place) -> u8
    ensures { result ≡ child_on w p }
{
    match p.body {
        Body::Base { .. } => NONE,
        Body::Route { left, right, .. } => if w { right } else { left },
    }
}

// The child of a route by a key: left if the key is smaller than the route's, else right.
pub fn child_by(k: u8, p: Place) -> u8
    ensures { result ≡ child_by k p }
{
    child_on(k >= route_key(p), p)
}

fn swap_body(x: u8, new: u8, b: Body) -> Body
    ensures { result ≡ swap_body x new b }
{
    let Body::Route { key, left, right } = b else {
        return b;
    };
    if left == x {
        Body::Route {
            key,
            left: new,
            right,
        }
    } else {
        Body::Route {
            key,
            left,
            right: new,
        }
    }
}

// `new` takes the place of `x` under the route `y`: left if that is `x`, else right.
pub fn takes_place(x: u8, new: u8, y: Place) -> Place
    ensures { result ≡ takes_place x new y }
{
    Place {
        body: swap_body(x, new, y.body),
        ..y
    }
}

pub fn with_lock(new: Lock, p: Place) -> Place
    ensures { result ≡ with_lock new p }
{
    Place { lock: new, ..p }
}

// `release` and `zero` differ in the rule on the lock alone; one function that takes the rule would say no more than these lines.
pub fn release(p: Place) -> Place
    ensures { result ≡ release p }
{
    with_lock(lock::release_lock(p.lock), p)
}

pub fn zero(p: Place) -> Place
    ensures { result ≡ zero p }
{
    with_lock(lock::zero_lock(p.lock), p)
}

pub fn invalid(p: Place) -> Place
    ensures { result ≡ invalid p }
{
    Place { valid: false, ..p }
}

pub fn with_keys(keys: u64, b: Place) -> Place
    ensures { result ≡ with_keys keys b }
{
    Place {
        body: Body::Base { keys },
        ..b
    }
}

// A new node: valid and free, with statistics 0.
pub fn new_node(b: Body) -> Place
    ensures { result ≡ new_node b }
{
    Place {
        lock: Lock {
            holder: lock::NOBODY,
            statistics: lock::ZERO_STATISTICS,
        },
        valid: true,
        body: b,
    }
}
