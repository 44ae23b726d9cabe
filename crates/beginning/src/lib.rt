// The calls that begin: a fresh state, and an operation. Each leaves the state as it came where it refuses.
#![tactic(auto)]

ghost use Rattle.std.specs.Prelude.{◌≡◌};
ghost use Rattle.rules.specs.State.{unmade};
ghost use Rattle.rules.specs.Refusals.{reply_number, refusal_of};
ghost use Rattle.rules.specs.Step.{zero_settings, fresh_order, fresh_of, begin_in, begin_order, begin_of};

use rules::answer::Refusal;
use rules::state::{Body, Place, Settings, State};

// A place that is not made.
#[tactic(auto, unfolding(rules::specs::State::unmade, rules::specs::State::new_node))]
fn unmade() -> Place
    ensures { result ≡ unmade }
{
    places::invalid(places::new_node(Body::Base { keys: 0 }))
}

// The fresh state of a run with any settings, without their range test.
pub fn fresh_in(c: Settings) -> State
    ensures { result ≡ Rattle.rules.specs.State.fresh c }
{
    let first = places::new_node(Body::Base { keys: 0 });
    let none = unmade();
    let mut places = [none; 128];
    places[0] = first;
    let idle = registers::fresh_thread();
    let threads = [idle; 8];
    State {
        root: 0,
        made: 1,
        begun: 0,
        committed: 0,
        settings: c,
        places,
        threads,
    }
}

// The fresh state of settings of four zeros.
#[tactic(auto, unfolding(rules::specs::Step::zero_settings))]
pub fn zero_state() -> State
    ensures { result ≡ Rattle.rules.specs.State.fresh zero_settings }
{
    fresh_in(Settings {
        succ: 0,
        fail: 0,
        low: 0,
        max: 0,
    })
}

// A fresh state with settings that are in range; `low` is how far min lies below 0. A refused call has the zero state.
#[tactic(auto, unfolding(rules::specs::Step::fresh_of))]
pub fn fresh(settings: Settings) -> (State, Result<(), Refusal>)
    ensures answer { record { reply = result.1; state = result.0 } ≡ fresh_of settings }
    ensures number { reply_number result.1 ≡ refusal_of (fresh_order settings) }
{
    if !range::settings_in_range(settings) {
        return (zero_state(), Err(Refusal::BadSettings));
    }
    (fresh_in(settings), Ok(()))
}

// Begin operation `o` (0 insert, 1 delete, 2 lookup) on key `k` in thread `t`, without the range test: begun goes up by one, and the thread gets
// the operation, the key and phase 1. The three numbers stay apart: each is refused for itself, and `begin_in` takes them so.
#[tactic(auto, unfolding(rules::specs::State::thread_at, rules::specs::Step::begun))]
pub fn begin_in(s: &mut State, t: u32, o: u32, k: u32) -> Result<(), Refusal>
    ensures { record { reply = result; state = s.new } ≡ begin_in s.old t o k }
{
    if 2 < o {
        return Err(Refusal::NotOfTheForms);
    }
    if 7 < t {
        return Err(Refusal::NoThread);
    }
    if 63 < k {
        return Err(Refusal::NoKey);
    }
    let i = t as usize;
    let thread = s.threads[i];
    if thread.phase != 0 {
        return Err(Refusal::Busy);
    }
    if 1000000 <= s.begun {
        return Err(Refusal::AllBegun);
    }
    s.threads[i] = registers::set_operation(o as u8, k as u8, thread);
    s.begun += 1;
    Ok(())
}

// Begin operation `o` on key `k` in thread `t`.
#[tactic(auto, unfolding(rules::specs::Step::begin_of))]
pub fn begin(s: &mut State, t: u32, o: u32, k: u32) -> Result<(), Refusal>
    ensures answer { record { reply = result; state = s.new } ≡ begin_of s.old t o k }
    ensures number { reply_number result ≡ refusal_of (begin_order s.old t o k) }
{
    if !range::in_range(s) {
        return Err(Refusal::OutOfRange);
    }
    begin_in(s, t, o, k)
}
