// The test of layout: a store long enough for its own sizes, whose unused words are zeros.
ghost use Rattle.std.specs.Prelude.{◌≡◌, ℕ, ◌+◌, ◌*◌, ◌<◌, ◌≤◌, length};
ghost use borrow.Rule.Slice.PartMut.{mid_of};
ghost use Rattle.lists.specs.Decides.{Decides};
ghost use Rattle.store.specs.Layout.{blocks_from, slot_count, block_size, needed as needed_of};
ghost use Rattle.store.specs.Sized.{as_sizes};
ghost use Rattle.store.specs.Formed.{WellSlot, WellSlots, WellFormedStore};

use crate::layout::{
    BLOCKS, FREE, HEAD, HEAD_ENTRIES, HEAD_MODULE, HEAD_PLACES, HEAD_WORDS, SLOT_HEAD, SLOT_KIND,
    SLOT_ZERO, SLOT_ZEROS,
};
use crate::sizes::Sizes;
use crate::slot::{control_length, queue_length};
use crate::zeros::zeros;
use checks::module::LONGEST;

// Whether a slot keeps the layout.
pub fn slot_formed(slot: &[u32], sizes: Sizes) -> bool
    requires { length slot.now ≡ sizes.slot }
    ensures { Decides (WellSlot (as_sizes sizes) slot.now) result }
{
    if slot[SLOT_ZERO] != 0 {
        return false;
    }
    if !zeros(&slot[SLOT_ZEROS..SLOT_HEAD]) {
        return false;
    }
    let control = control_length(slot);
    if sizes.words < control {
        return false;
    }
    let queue = queue_length(slot);
    if sizes.places * sizes.entries < queue {
        return false;
    }
    let names = SLOT_HEAD + sizes.words;
    let behind = SLOT_HEAD + control;
    if !zeros(&slot[behind..names]) {
        return false;
    }
    let last = names + queue;
    zeros(&slot[last..])
}

// Whether the slots of a block keep the layout, the free ones all behind the others. Cut by hand, not in chunks: the first free slot asks
// zeros of all that is left.
pub fn block_formed(block: &[u32], sizes: Sizes) -> bool
    requires { length block.now ≡ sizes.block }
    ensures { Decides (WellSlots (as_sizes sizes) (slot_count (as_sizes sizes)) block.now) result }
{
    let mut rest = block;
    while !rest.is_empty() {
        if rest[SLOT_KIND] == FREE {
            return zeros(rest);
        }
        let (slot, others) = rest.split_at(sizes.slot);
        if !slot_formed(slot, sizes) {
            return false;
        }
        rest = others;
    }
    true
}

// Whether the blocks of all places keep the layout. By places, not in chunks: the contract tells each block by where it stands.
pub fn blocks_formed(store: &[u32], sizes: Sizes) -> bool
    requires { needed_of (as_sizes sizes) ≤ length store.now }
    ensures { Decides ((p : ℕ) → p < sizes.places → WellSlots (as_sizes sizes) (slot_count (as_sizes sizes)) (mid_of (blocks_from + p * block_size (as_sizes sizes)) (block_size (as_sizes sizes)) store.now)) result }
{
    for p in 0..sizes.places {
        let at = BLOCKS + p * sizes.block;
        let end = at + sizes.block;
        if !block_formed(&store[at..end], sizes) {
            return false;
        }
    }
    true
}

// Whether a store keeps the layout.
pub fn well_formed(store: &[u32]) -> bool
    ensures { Decides (WellFormedStore store.now) result }
{
    if store.len() < BLOCKS {
        return false;
    }
    let said = Sizes::new(store[HEAD_PLACES], store[HEAD_ENTRIES], store[HEAD_WORDS]);
    let Some(sizes) = said else {
        return false;
    };
    if store.len() < sizes.needed() {
        return false;
    }
    let length = store[HEAD_MODULE] as usize;
    if LONGEST < length {
        return false;
    }
    let behind = HEAD + length;
    if !zeros(&store[behind..BLOCKS]) {
        return false;
    }
    blocks_formed(store, sizes)
}
