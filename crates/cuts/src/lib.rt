// Cuts on numbers alone: which events go with one that goes, and whether accepted undos take them off.
#![tactic(auto)]

pub mod bounds;
pub mod chains;
pub mod cut;
pub mod events;
pub mod link;
pub mod search;
