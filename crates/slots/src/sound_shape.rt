// Slots: what the slot of a process and the slot of an entry may be.
ghost use Rattle.std.specs.Prelude.{◌≡◌, ◌≤◌, ◌*◌, length, drop};
ghost use Rattle.lists.specs.Lists.{All, chop};
ghost use Rattle.store.specs.Layout.{slot_head};
ghost use Rattle.slots.specs.SoundTests.{ControlFits, Slots, plain_slot, present_slot, entry_slot, control_passes, entry_passes, entries_pass, ControlBlock, place_passes, every_of};

use crate::blocks::Sizes;
use checks::control::check_control;
use store::layout::{
    CHECK, FREE, LIVE, REC, SELF, SEND, SEQ, SLOT_HEAD, SLOT_KIND, SLOT_NUMBER, SLOT_QUEUE,
    SLOT_WORDS, SPAWN,
};
use store::sizes::Sizes as StoreSizes;

// The greatest number of a check.
const GREATEST_CHECK: u32 = 255;

// No number and no names.
fn plain(slot: &[u32]) -> bool
    requires { slot_head ≤ length slot.now }
    ensures { result ≡ plain_slot slot.now }
{
    slot[SLOT_NUMBER] == 0 && slot[SLOT_QUEUE] == 0
}

// The slot of a process.
pub fn present_shape(slot: &[u32]) -> bool
    requires { slot_head ≤ length slot.now }
    ensures { result ≡ present_slot slot.now }
{
    slot[SLOT_KIND] == LIVE && slot[SLOT_NUMBER] == 0
}

// The slot of an entry; that a send's control is about to send is tested where targets are noted.
pub fn entry_shape(slot: &[u32]) -> bool
    requires { slot_head ≤ length slot.now }
    ensures { result ≡ entry_slot slot.now }
{
    match slot[SLOT_KIND] {
        SEQ => plain(slot),
        SEND => plain(slot),
        REC => slot[SLOT_NUMBER] < slot[SLOT_QUEUE],
        SPAWN => slot[SLOT_QUEUE] == 0,
        SELF => plain(slot),
        CHECK => slot[SLOT_NUMBER] <= GREATEST_CHECK && slot[SLOT_QUEUE] == 0,
        _ => false,
    }
}

// A slot's control passes the control check.
fn control_passes(slot: &[u32], places: u32, arities: &[u32]) -> bool
    requires { (slot_head ≤ length slot.now) × ControlFits slot.now }
    ensures { result ≡ control_passes places arities.now slot.now }
{
    check_control(
        &slot[SLOT_HEAD..SLOT_HEAD + slot[SLOT_WORDS] as usize],
        places,
        arities,
    )
}

// A free slot, or the slot of an entry with a control that passes.
fn entry_passes(slot: &[u32], places: u32, arities: &[u32]) -> bool
    requires { (slot_head ≤ length slot.now) × ControlFits slot.now }
    ensures { result ≡ entry_passes places arities.now slot.now }
{
    slot[SLOT_KIND] == FREE || entry_shape(slot) && control_passes(slot, places, arities)
}

// The entries of a place.
pub fn entries_pass(block: &[u32], sizes: Sizes, places: u32, arities: &[u32]) -> bool
    requires { (sizes.slot ≤ length block.now) × Slots 0 sizes.slot sizes.entries (drop sizes.slot block.now) × All ControlFits (chop sizes.entries sizes.slot (drop sizes.slot block.now)) }
    ensures { result ≡ entries_pass sizes.slot sizes.entries places arities.now block.now }
{
    // Without entries a slot may have no words, and there are no chunks of that size.
    if sizes.entries == 0 {
        return true;
    }
    for slot in block[sizes.slot..].chunks_exact(sizes.slot) {
        if !entry_passes(slot, places, arities) {
            return false;
        }
    }
    true
}

// The slots of a place: none in use, or those of a process and its entries.
fn place_passes(block: &[u32], sizes: Sizes, places: u32, arities: &[u32]) -> bool
    requires { ControlBlock sizes.slot sizes.entries block.now }
    ensures { result ≡ place_passes sizes.slot sizes.entries places arities.now block.now }
{
    if block[SLOT_KIND] == FREE {
        return true;
    }
    if !present_shape(&block[..sizes.slot]) {
        return false;
    }
    if !control_passes(&block[..sizes.slot], places, arities) {
        return false;
    }
    entries_pass(block, sizes, places, arities)
}

// The slots of all places.
pub fn places_pass(blocks: &[u32], sizes: StoreSizes, places: u32, arities: &[u32]) -> bool
    requires { (length blocks.now ≡ sizes.places * sizes.block) × All (ControlBlock sizes.slot sizes.entries) (chop sizes.places sizes.block blocks.now) }
    ensures { result ≡ every_of (place_passes sizes.slot sizes.entries places arities.now) (chop sizes.places sizes.block blocks.now) }
{
    // The tests of a place ask no more of sizes than their numbers.
    let numbers = Sizes {
        places: sizes.places,
        entries: sizes.entries,
        words: sizes.words,
        slot: sizes.slot,
        block: sizes.block,
    };
    for block in blocks.chunks_exact(sizes.block) {
        if !place_passes(block, numbers, places, arities) {
            return false;
        }
    }
    true
}
