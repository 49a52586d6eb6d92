// Numbers as bytes, the lowest byte first.
#![tactic(auto)]

pub mod checked;
