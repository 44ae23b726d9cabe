// A thread with one register set. One function over all registers would be no plainer: its caller would write the struct update in a closure.
#![tactic(auto)]

ghost use Rattle.std.specs.Prelude.{◌≡◌};
ghost use Rattle.rules.specs.State.{fresh_thread};
ghost use Rattle.rules.specs.Registers.{at_phase, set_prev, set_base, set_walk, set_neighbour, set_grandparent, set_made, set_side, set_operation, set_answer};

use rules::state::Thread;

// A node register that names no node. No Option: the record holds a number, and `in_range` answers for any.
const NONE: u8 = 128;

pub fn at_phase(p: u8, t: Thread) -> Thread
    ensures { result ≡ at_phase p t }
{
    Thread { phase: p, ..t }
}

pub fn set_prev(n: u8, t: Thread) -> Thread
    ensures { result ≡ set_prev n t }
{
    Thread { prev: n, ..t }
}

pub fn set_base(n: u8, t: Thread) -> Thread
    ensures { result ≡ set_base n t }
{
    Thread { base: n, ..t }
}

pub fn set_walk(n: u8, t: Thread) -> Thread
    ensures { result ≡ set_walk n t }
{
    Thread { walk: n, ..t }
}

pub fn set_neighbour(n: u8, t: Thread) -> Thread
    ensures { result ≡ set_neighbour n t }
{
    Thread { neighbour: n, ..t }
}

pub fn set_grandparent(n: u8, t: Thread) -> Thread
    ensures { result ≡ set_grandparent n t }
{
    Thread {
        grandparent: n,
        ..t
    }
}

pub fn set_made(n: u8, t: Thread) -> Thread
    ensures { result ≡ set_made n t }
{
    Thread { made: n, ..t }
}

pub fn set_side(w: bool, t: Thread) -> Thread
    ensures { result ≡ set_side w t }
{
    Thread { side: w, ..t }
}

// The thread gets the operation, the key and phase 1.
pub fn set_operation(o: u8, k: u8, t: Thread) -> Thread
    ensures { result ≡ set_operation o k t }
{
    Thread {
        operation: o,
        key: k,
        phase: 1,
        ..t
    }
}

// The answer and the commit number.
pub fn set_answer(a: u8, n: u32, t: Thread) -> Thread
    ensures { result ≡ set_answer a n t }
{
    Thread {
        answer: a,
        commit: n,
        ..t
    }
}

// A thread as fresh: idle, all zero or none.
pub fn fresh_thread() -> Thread
    ensures { result ≡ fresh_thread }
{
    Thread {
        phase: 0,
        operation: 0,
        key: 0,
        prev: NONE,
        base: NONE,
        walk: NONE,
        neighbour: NONE,
        grandparent: NONE,
        made: NONE,
        answer: 0,
        commit: 0,
        side: false,
    }
}
