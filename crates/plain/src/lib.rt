// The plain set: theorems only, no function.
#![tactic(auto)]
