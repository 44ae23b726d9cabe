// The records of document 01. Their rules are the definitions in specs/; this crate has no function.
#![tactic(auto)]

pub mod answer;
pub mod list;
pub mod row;
pub mod state;
