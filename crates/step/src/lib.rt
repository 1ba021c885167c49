// One process step on rows of words: what a control is about to do, and what it becomes.
#![tactic(auto)]

pub mod control;
pub mod step;
pub mod work;
