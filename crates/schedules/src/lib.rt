// Schedules as runs: theorems only, no function.
#![tactic(auto)]
