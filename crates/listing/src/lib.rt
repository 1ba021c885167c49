// The listing of the state that a store holds.
#![tactic(auto)]

pub mod flying;
pub mod listing;
pub mod processes;
