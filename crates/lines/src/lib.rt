// Command lines, and the program's input.
#![tactic(auto)]

pub mod input;
pub mod lines;
