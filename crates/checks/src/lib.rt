// The module check and the control check: shape, then binding, names of functions and numbers of checks.
#![tactic(auto)]

mod binding;
pub mod control;
pub mod module;
