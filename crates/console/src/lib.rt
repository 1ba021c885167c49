// Bytes, numbers and words between a program and the bytes that it reads and prints.
#![tactic(auto)]

pub mod interrupt;
pub mod printing;
pub mod words;
