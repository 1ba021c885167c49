// An entry more, written into a store that is the image of a sound state.
#![tactic(auto)]

pub mod entering;
