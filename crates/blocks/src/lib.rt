// A block of the input: of commands, or of a script.
#![tactic(auto)]

pub mod blocks;
