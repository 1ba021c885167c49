// The blocks of a store: how many there are, and how long they and their parts are.

// The places, the entries of each, the words that a control may have, and the words of a slot and of a block.
// They are any numbers, so that who takes them asks of callers no more than its clauses say.
#[derive(Clone, Copy)]
pub struct Sizes {
    pub places: usize,
    pub entries: usize,
    pub words: usize,
    pub slot: usize,
    pub block: usize,
}
