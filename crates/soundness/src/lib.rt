// The soundness test: whether the words of a store begin with the image of a sound state.
#![tactic(auto)]

pub mod flows;
pub mod messages;
pub mod sound;
