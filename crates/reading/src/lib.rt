// What stands in a store that is the image of a sound state.
#![tactic(auto)]

pub mod entries;
pub mod mail;
pub mod slots;
pub mod state;
