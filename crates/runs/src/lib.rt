// Runs and what demand 3 says of them: definitions only, no function.
#![tactic(auto)]
