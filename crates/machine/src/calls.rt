// One step of a thread. It leaves the state as it came where it refuses.
ghost use Rattle.std.specs.Prelude.{◌≡◌, []};
ghost use Rattle.rules.specs.Refusals.{first, reply_number, refusal_of};
ghost use Rattle.rules.specs.Step.{step_order, step_of};
ghost use Rattle.rules.specs.Answers.{step_values, step_says};

use crate::view;
use rows::phase;
use rules::answer::{Refusal, StepReply};
use rules::row::Plan;
use rules::state::{State, Thread};

// What a step answers: the phase that it goes to, or how the operation ends.
fn reply_of(t: Thread, p: Plan) -> StepReply
    ensures { result ≡ Rattle.rules.specs.Step.reply_from t p }
{
    if t.phase == 25 {
        return StepReply::Ends {
            answer: t.answer,
            commit: t.commit,
        };
    }
    StepReply::Goes {
        phase: p.thread.phase,
    }
}

// The next step of thread `t`.
pub fn step(s: &mut State, t: u32) -> Result<StepReply, Refusal>
    ensures answer { record { reply = result; state = s.new } ≡ step_of s.old t }
    ensures number { reply_number result ≡ refusal_of (step_order s.old t) }
    ensures values { step_values result ≡ first (step_order s.old t) (λ n. []) (step_says s.old t) }
{
    if !range::in_range(s) {
        return Err(Refusal::OutOfRange);
    }
    if 7 < t {
        return Err(Refusal::NoThread);
    }
    let thread = s.threads[t as usize];
    if thread.phase == 0 {
        return Err(Refusal::Idle);
    }
    let v = view::view(s, t);
    if ready::stuck(v) {
        return Err(Refusal::Stuck);
    }
    let plan = phase::plan_of(v);
    view::apply(s, t, plan);
    Ok(reply_of(thread, plan))
}
