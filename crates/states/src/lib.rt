// Theorems about the states of the machine: they are in specs/ and proofs/, and there is no function.
#![tactic(auto)]
