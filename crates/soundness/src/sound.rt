// The soundness test: whether words begin with the image of a sound state.
ghost use Rattle.std.specs.Prelude.{◌≡◌, ◌*◌, length};
ghost use Rattle.lists.specs.Lists.{All, chop};
ghost use Rattle.lists.specs.Decides.{Decides};
ghost use Rattle.store.specs.Formed.{WellFormedStore};
ghost use Rattle.store.specs.Image.{IsImage};
ghost use Rattle.store.specs.Layout.{most_places};
ghost use Rattle.slots.specs.SoundTests.{ControlBlock};
ghost use Rattle.soundness.specs.MessageTests.{TakenBlock};
ghost use Rattle.soundness.specs.StoreTests.{WholeBlock, MessagesTested, SlotsTested, StoreTested};

use crate::flows::flows;
use crate::messages::messages;
use checks::module::{LONGEST, check_module, read_functions};
use slots::blocks::Sizes;
use slots::sound_births::{births, live_places};
use slots::sound_sends::note_places;
use slots::sound_shape::places_pass;
use store::layout::{BLOCKS, HEAD, HEAD_MODULE, NAMES_ROOM};
use store::sizes::Sizes as StoreSizes;
use store::well_formed::well_formed;

// Each send is to a live place, each message that came was sent to its place and came once, and what recs left are prefixes.
fn sound_messages(blocks: &[u32], sizes: StoreSizes, live: &[bool]) -> bool
    requires { (length blocks.now ≡ sizes.places * sizes.block) × All (ControlBlock sizes.slot sizes.entries) (chop sizes.places sizes.block blocks.now) × All (TakenBlock sizes.words sizes.slot sizes.entries) (chop sizes.places sizes.block blocks.now) × (length live.now ≡ most_places) }
    ensures { MessagesTested live.now sizes.places sizes.entries sizes.words sizes.slot (chop sizes.places sizes.block blocks.now) result }
{
    let mut targets = [0u32; NAMES_ROOM];
    if !note_places(blocks, sizes, live, &mut targets) {
        return false;
    }
    // The tests of messages and of flows ask no more of sizes than their numbers.
    let numbers = Sizes {
        places: sizes.places,
        entries: sizes.entries,
        words: sizes.words,
        slot: sizes.slot,
        block: sizes.block,
    };
    if !messages(blocks, numbers, &mut targets) {
        return false;
    }
    flows(blocks, numbers)
}

// The slots of a store that keeps the layout; the first process, at place 0, is live.
fn sound_slots(blocks: &[u32], sizes: StoreSizes, arities: &[u32]) -> bool
    requires { (length blocks.now ≡ sizes.places * sizes.block) × All (WholeBlock sizes.words sizes.slot sizes.entries) (chop sizes.places sizes.block blocks.now) }
    ensures { SlotsTested sizes.places sizes.entries sizes.words sizes.slot arities.now (chop sizes.places sizes.block blocks.now) result }
{
    if !places_pass(blocks, sizes, sizes.places as u32, arities) {
        return false;
    }
    let live = live_places(blocks, sizes);
    if !live[0] {
        return false;
    }
    if !births(blocks, sizes, &live) {
        return false;
    }
    sound_messages(blocks, sizes, &live)
}

// The blocks of a store that keeps the layout, for functions with these parameter counts.
fn sound_blocks(store: &[u32], arities: &[u32]) -> bool
    requires { WellFormedStore store.now }
    ensures { StoreTested store.now arities.now result }
{
    let sizes = StoreSizes::at_head(store);
    let all = sizes.needed();
    sound_slots(&store[BLOCKS..all], sizes, arities)
}

// A store that keeps the layout: its module, then its blocks.
fn sound_formed(store: &[u32]) -> bool
    requires { WellFormedStore store.now }
    ensures { Decides (IsImage store.now) result }
{
    let end = HEAD + store[HEAD_MODULE] as usize;
    let Ok(()) = check_module(&store[HEAD..end]) else {
        return false;
    };
    let mut counts = [0u32; LONGEST];
    // The functions of a good module can be read, so this arm is never taken.
    let Ok(m) = read_functions(&store[HEAD..end], &mut counts) else {
        return false;
    };
    sound_blocks(store, &counts[..m])
}

// Whether words begin with the image of a sound state.
pub fn sound(store: &[u32]) -> bool
    ensures { Decides (IsImage store.now) result }
{
    well_formed(store) && sound_formed(store)
}
