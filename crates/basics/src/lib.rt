// Choices, lists and their laws, for the definitions of every other crate. There is no code here.
#![tactic(auto)]
