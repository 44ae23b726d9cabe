// The invariant of the machine: theorems only, no function.
#![tactic(auto)]
