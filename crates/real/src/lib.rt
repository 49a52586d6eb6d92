// Circuits in the .real form: what a text is read as, the text that a circuit is written as, and what may stand in a line.
#![tactic(auto)]

pub mod spelling;
