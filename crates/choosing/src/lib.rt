// The clause that takes a value.
#![tactic(auto)]

pub mod clause;
