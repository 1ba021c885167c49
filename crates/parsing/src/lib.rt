// Command lines read.
#![tactic(auto)]

pub mod lines;
pub mod parsing;
