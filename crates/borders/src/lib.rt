// Every rule at its border, its place and its order, every letter of the report: one table. There is no code here.
#![tactic(auto)]
