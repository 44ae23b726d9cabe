// Schedule lines in, sheet lines out.
#![tactic(auto)]

pub mod calls;
mod shown;
