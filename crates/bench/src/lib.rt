// The calls on plain numbers and slices.
#![tactic(auto)]

pub mod exports;
