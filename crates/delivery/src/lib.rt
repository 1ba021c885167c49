// Deliver on a store.
#![tactic(auto)]

pub mod delivery;
