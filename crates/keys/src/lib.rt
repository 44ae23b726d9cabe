// Sets of the keys 0 to 63 in a u64.
#![tactic(auto)]

ghost use Rattle.std.specs.Prelude.{◌≡◌, ◌<◌, ◌^◌};
ghost use Rattle.keys.specs.Keys.{has, with, without, union, below, from, size, split_key};

// Whether k is a key of the set m.
#[tactic(auto, using(crate::proofs::Laws::has_large))]
pub fn has(m: u64, k: u8) -> bool
    ensures { result ≡ has m k }
{
    k < 64 && (m >> k) % 2 == 1
}

// The set of the key k alone.
fn place(k: u8) -> u64
    requires { k < 64 }
    ensures { result ≡ 2 ^ k }
{
    1 << k
}

// The set m and the key k.
#[tactic(auto, using(crate::proofs::Digits::with_new, crate::proofs::Laws::with_old, crate::proofs::Laws::with_large))]
pub fn with(m: u64, k: u8) -> u64
    ensures { result ≡ with m k }
{
    if k < 64 && !has(m, k) {
        m + place(k)
    } else {
        m
    }
}

// The set m but for the key k.
#[tactic(auto, using(crate::proofs::Digits::key_le, crate::proofs::Digits::without_key, crate::proofs::Laws::has_small))]
pub fn without(m: u64, k: u8) -> u64
    ensures { result ≡ without m k }
{
    if has(m, k) { m - place(k) } else { m }
}

// The keys of a and those of b.
#[tactic(auto, unfolding(crate::specs::Keys::union))]
pub fn union(a: u64, b: u64) -> u64
    ensures { result ≡ union a b }
{
    a | b
}

// The keys of m that are smaller than k.
#[tactic(auto, unfolding(crate::specs::Keys::below))]
pub fn below(m: u64, k: u8) -> u64
    ensures { result ≡ below m k }
{
    if k < 64 { m % place(k) } else { m }
}

// The keys of m from k on.
#[tactic(auto, unfolding(crate::specs::Keys::below, crate::specs::Keys::from))]
pub fn from(m: u64, k: u8) -> u64
    ensures { result ≡ from m k }
{
    m - below(m, k)
}

// How many keys the set m has.
pub fn size(m: u64) -> u8
    ensures { result ≡ size m }
{
    m.count_ones() as u8
}

// Of n keys in rising order the one with n / 2 keys before it; 0 for the empty set.
pub fn split_key(m: u64) -> u8
    ensures { result ≡ split_key m }
{
    let before = size(m) / 2;
    (0..64)
        .filter(|&k| has(m, k))
        .nth(usize::from(before))
        .unwrap_or(0)
}
