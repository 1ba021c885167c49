// What a process that lives does by step or spawn.
#![tactic(auto)]

pub mod stepping;
