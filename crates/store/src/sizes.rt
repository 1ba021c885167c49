// Sizes: how many places, entries of each and words of a control a store has room for, and how long its parts then are.
ghost use Rattle.std.specs.Prelude.{◌≡◌, true};
ghost use Rattle.rules.specs.Load.{good_sizes};
ghost use Rattle.store.specs.Layout.{slot_size, block_size};
ghost use Rattle.store.specs.Sizing.{sizes_of};

use crate::layout::{
    BLOCKS, HEAD_ENTRIES, HEAD_PLACES, HEAD_WORDS, LEAST_WORDS, MOST_ENTRIES, MOST_PLACES,
    MOST_WORDS, SLOT_HEAD,
};

// Sizes within their ranges, and how many words a slot and a block have.
#[derive(Clone, Copy)]
pub struct Sizes {
    pub places: usize,
    pub entries: usize,
    pub words: usize,
    pub slot: usize,
    pub block: usize,
    pub ghost good: { good_sizes (sizes_of places entries words) ≡ true },
    pub ghost slot_is: { slot ≡ slot_size (sizes_of places entries words) },
    pub ghost block_is: { block ≡ block_size (sizes_of places entries words) },
}

impl Sizes {
    ghost use Rattle.std.specs.Prelude.{◌≡◌, true, false, ◌+◌, ◌*◌, ◌<◌, ◌≤◌, length, MatchOption};
    ghost use Rattle.rules.specs.Load.{good_sizes};
    ghost use Rattle.store.specs.Layout.{blocks_from, slot_size, block_size, needed};
    ghost use Rattle.store.specs.Sizing.{sizes_of};
    ghost use Rattle.store.specs.Formed.{sizes_in};
    ghost use Rattle.store.specs.Sized.{as_sizes};

    // Sizes, if they are within their ranges.
    pub fn new(places: u32, entries: u32, words: u32) -> Option<Sizes>
        ensures { MatchOption result (good_sizes (sizes_of places entries words) ≡ false) (λ sizes. as_sizes sizes ≡ sizes_of places entries words) }
    {
        if places < 1 || MOST_PLACES < places {
            return None;
        }
        if entries < 1 || MOST_ENTRIES < entries {
            return None;
        }
        if words < LEAST_WORDS || MOST_WORDS < words {
            return None;
        }
        Some(Sizes::within(places as usize, entries as usize, words as usize))
    }

    // The sizes that the head of a store says.
    pub fn at_head(store: &[u32]) -> Sizes
        requires { (3 ≤ length store.now) × (good_sizes (sizes_in store.now) ≡ true) }
        ensures { as_sizes result ≡ sizes_in store.now }
    {
        Sizes::within(
            store[HEAD_PLACES] as usize,
            store[HEAD_ENTRIES] as usize,
            store[HEAD_WORDS] as usize,
        )
    }

    // Sizes that are within their ranges.
    fn within(places: usize, entries: usize, words: usize) -> Sizes
        requires { good_sizes (sizes_of places entries words) ≡ true }
        ensures { as_sizes result ≡ sizes_of places entries words }
    {
        let slot = SLOT_HEAD + (words + places * entries);
        let block = (entries + 1) * slot;
        Sizes {
            places,
            entries,
            words,
            slot,
            block,
        }
    }

    // How many words a store needs.
    pub fn needed(self) -> usize
        ensures { result ≡ needed (as_sizes self) }
    {
        BLOCKS + self.places * self.block
    }

    // Where slot i of place p starts.
    pub fn slot_start(self, p: usize, i: usize) -> usize
        requires { (p < self.places) × (i ≤ self.entries) }
        ensures { result ≡ blocks_from + p * block_size (as_sizes self) + i * slot_size (as_sizes self) }
    {
        BLOCKS + p * self.block + i * self.slot
    }
}
