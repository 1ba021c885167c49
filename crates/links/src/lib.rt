// The numbers of a state, read off its store: how many events each line has, and which event depends at once on which.
#![tactic(auto)]

pub mod aims;
pub mod arrivals;
pub mod collecting;
pub mod links;
