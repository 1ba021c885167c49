// Step and spawn on a store.
#![tactic(auto)]

pub mod commands;
