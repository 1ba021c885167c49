// Standard input, taken line by line.
#![tactic(auto)]

pub mod stream;
