// Lines of a script that load.
#![tactic(auto)]

pub mod loads;
