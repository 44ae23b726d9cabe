// The phase table in code: the plan of a step from what it reads. Rows that differ in a register or a phase alone stay a function each: the table has
// a row for each, and `plan_of` speaks of each.
#![tactic(auto)]

mod commit;
mod join;
mod neighbour;
pub mod phase;
mod plan;
mod search;
mod split;
