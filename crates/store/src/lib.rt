// The store: the one image of a state in a lent slice.
#![tactic(auto)]

pub mod fill;
pub mod layout;
pub mod load;
pub mod sizes;
pub mod slot;
pub mod well_formed;
pub mod zeros;
