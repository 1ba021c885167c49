// Operators on numbers and values, and guards.
#![tactic(auto)]

pub mod guard;
pub mod integer;
pub mod operand;
pub mod same;
