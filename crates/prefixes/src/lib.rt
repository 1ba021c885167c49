// Whether words begin with others.
#![tactic(auto)]

pub mod prefixes;
