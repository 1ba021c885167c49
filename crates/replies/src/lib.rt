// What is printed for a command line.
#![tactic(auto)]

pub mod replies;
