// Marks: for each level or gate the word of the lines at which vectors catch a fault; made by a vector, and counted.
#![tactic(auto)]

pub mod counts;
pub mod marks;
