// The bytes of schedules and sheets: definitions, in specs/, and laws, in proofs/. No functions.
#![tactic(auto)]
