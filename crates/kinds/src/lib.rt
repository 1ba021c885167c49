// The kinds of the entries of a history.
#![tactic(auto)]

#[derive(Clone, Copy, PartialEq, Eq)]
pub enum Kind {
    Seq,
    Send,
    Rec,
    Spawn,
    Own,
    Check,
}
