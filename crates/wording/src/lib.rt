// The words in which a description is explained: text, numbers and names on standard output, and what the tables hold
// by name. How it is written is in no contract; what is written comes from the crates below.
#![tactic(auto)]

pub mod parts;
pub mod write;
