// The tests of single slots and blocks: their shapes, births, and the targets of sends.
#![tactic(auto)]

pub mod blocks;
pub mod sound_births;
pub mod sound_sends;
pub mod sound_shape;
