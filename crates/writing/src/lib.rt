// What a command writes into a store that is the image of a sound state.
#![tactic(auto)]

pub mod posting;
pub mod slots;
pub mod spans;
pub mod undoing;
