// What the proof of a function over a lent slice of structs is made of is in proofs/. There is no code.
#![tactic(auto)]
