// Laws of walks and trees: theorems only, no function.
#![tactic(auto)]
