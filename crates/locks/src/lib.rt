// What rows do to a lock.
#![tactic(auto)]

pub mod lent;
pub mod lock;
