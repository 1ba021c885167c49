// What the public calls on a store answer, a count or a refusal, with its numbers and values; and those of a load.
#![tactic(auto)]

pub mod answers;
pub mod load_answers;
