// The demands as theorems; no code.
#![tactic(auto)]
