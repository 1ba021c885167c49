// The working place, matching, copying with values in place of variables, and the control after a step.
#![tactic(auto)]

pub mod copy;
pub mod matching;
pub mod next;
pub mod place;
