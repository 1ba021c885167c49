// Terms in rows of words: the parts of a word, the table of the 18 tags, where terms end and functions begin.
#![tactic(auto)]

pub mod functions;
pub mod tables;
pub mod terms;
pub mod words;
