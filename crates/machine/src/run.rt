// Counted steps: the call behind an `S` line.
ghost use Rattle.std.specs.Prelude.{◌≡◌, ◌<◌, ◌≤◌, [], OnOk, IfErr};
ghost use Rattle.states.specs.Waits.{waits};
ghost use Rattle.rules.specs.Refusals.{first, reply_number, refusal_of};
ghost use Rattle.rules.specs.Step.{refused_by, steps, run_in, run_order, run_of};
ghost use Rattle.rules.specs.Answers.{run_values, run_says};

use crate::view;
use rows::phase;
use rules::answer::{Refusal, RunReply};
use rules::row::View;
use rules::state::State;

// The step waits: its lock at phase 4, 13 or 17 is held. Phases are numbers here too, as `plan_of` decides over them.
fn waits(v: View) -> bool
    ensures { result ≡ waits v }
{
    match v.thread.phase {
        4 => !places::is_free(v.base),
        13 => !places::is_free(v.prev),
        17 => !places::is_free(v.grandparent),
        _ => false,
    }
}

// What counted steps are refused with before the first step.
#[tactic(auto, unfolding(rules::specs::State::thread_at))]
fn test(s: &State, t: u32, n: u32) -> Result<(), Refusal>
    ensures taken { OnOk result ((t < 8) × ((n ≤ 1000) × (run_in s.now t n ≡ steps n s.now s.now t 0))) }
    ensures refused { IfErr result (λ r. run_in s.now t n ≡ refused_by s.now r) }
{
    if 7 < t {
        return Err(Refusal::NoThread);
    }
    if n == 0 {
        return Err(Refusal::BadCount);
    }
    if 1000 < n {
        return Err(Refusal::BadCount);
    }
    if s.threads[t as usize].phase == 0 {
        return Err(Refusal::Idle);
    }
    Ok(())
}

// Take `n` steps of thread `t`, or fewer if the operation ends, without the range test. A step that waits changes nothing, so all that are left
// wait too. The loop is left by break and yields the steps taken, a form that the project fixes.
pub fn run_in(s: &mut State, t: u32, n: u32) -> Result<RunReply, Refusal>
    ensures { record { reply = result; state = s.new } ≡ run_in s.old t n }
{
    test(s, t, n)?;
    let before = *s;
    let mut taken: u32 = 0;
    loop {
        let thread = s.threads[t as usize];
        if n <= taken {
            break Ok(RunReply::Stops {
                taken,
                phase: thread.phase,
            });
        }
        let v = view::view(s, t);
        if ready::stuck(v) {
            *s = before;
            break Err(Refusal::Stuck);
        }
        if waits(v) {
            break Ok(RunReply::Stops {
                taken: n,
                phase: thread.phase,
            });
        }
        view::apply(s, t, phase::plan_of(v));
        taken += 1;
        if thread.phase == 25 {
            break Ok(RunReply::Ends {
                taken,
                answer: thread.answer,
                commit: thread.commit,
            });
        }
    }
}

// Take `n` steps of thread `t`, or fewer if the operation ends.
pub fn run(s: &mut State, t: u32, n: u32) -> Result<RunReply, Refusal>
    ensures answer { record { reply = result; state = s.new } ≡ run_of s.old t n }
    ensures number { reply_number result ≡ refusal_of (run_order s.old t n) }
    ensures values { run_values result ≡ first (run_order s.old t n) (λ m. []) (run_says s.old t n) }
{
    if !range::in_range(s) {
        return Err(Refusal::OutOfRange);
    }
    run_in(s, t, n)
}
