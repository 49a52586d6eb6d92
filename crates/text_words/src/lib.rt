// A text as its lines, and a line as its words: one after the other, and which are the same. Nothing is stored, and no number is cut.
#![tactic(auto)]

pub mod runs;
pub mod same;
