// Texts as bytes: keys, numbers, and lines written.
#![tactic(auto)]

pub mod keys;
pub mod listing;
pub mod replies;
pub mod writing;
