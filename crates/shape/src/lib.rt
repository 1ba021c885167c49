// Shape: reading a row in order, with the spots where its terms stand.
#![tactic(auto)]

pub mod shape;
