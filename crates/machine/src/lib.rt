// The machine on a whole state: a step, and counted steps.
#![tactic(auto)]

pub mod calls;
pub mod run;
mod view;
