// Rollback: an event is undone with all that depend on it, or nothing is.
#![tactic(auto)]

pub mod down;
pub mod rollback;
