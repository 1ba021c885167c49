// What a process is about to do, its next control, and one entry more.
#![tactic(auto)]

pub mod making;
pub mod next;
pub mod picking;
