// Undoing: back and undeliver on a store.
#![tactic(auto)]

pub mod backward;
pub mod held;
