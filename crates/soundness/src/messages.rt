// Messages: each message that came was sent to its place and came once.
ghost use Rattle.std.specs.Prelude.{◌≡◌, ◌*◌, ◌<◌, ◌≤◌, length, drop};
ghost use Rattle.lists.specs.Lists.{All, chop};
ghost use Rattle.store.specs.Layout.{most_places, most_entries};
ghost use Rattle.slots.specs.SoundTests.{NamesFit, Slots, answered};
ghost use Rattle.soundness.specs.MessageTests.{TakenFits, arrive_one, arrive_all, arrive_slot, arrive_taken, TakenBlock, arrive_place, arrive_from};

use rows::words::NAME_BASE;
use slots::blocks::Sizes;
use store::layout::{REC, SLOT_HEAD, SLOT_KIND, SLOT_NUMBER, SLOT_QUEUE};

// A message that came to a place: it was sent there, and did not come before. `targets` holds one more than each send's target, 0 where
// none is, as `arrive_one` says.
fn arrive(name: u32, sizes: Sizes, place: u32, targets: &mut [u32]) -> bool
    requires { (sizes.places * sizes.entries ≤ length targets.old) × (place < most_places) × (sizes.places ≤ most_places) × (sizes.entries ≤ most_entries) }
    ensures { answered result targets.new ≡ arrive_one sizes.places sizes.entries place name targets.old }
{
    let places = sizes.places;
    let entries = sizes.entries;
    let sender = (name / NAME_BASE) as usize;
    let count = (name % NAME_BASE) as usize;
    if places <= sender {
        return false;
    }
    if entries <= count {
        return false;
    }
    let at = sender * entries + count;
    if targets[at] != place + 1 {
        return false;
    }
    targets[at] = 0;
    true
}

// The messages of a queue.
fn arrive_all(names: &[u32], sizes: Sizes, place: u32, targets: &mut [u32]) -> bool
    requires { (sizes.places * sizes.entries ≤ length targets.old) × (place < most_places) × (sizes.places ≤ most_places) × (sizes.entries ≤ most_entries) }
    ensures { answered result targets.new ≡ arrive_all sizes.places sizes.entries place names.now targets.old }
{
    for name in names {
        if !arrive(*name, sizes, place, targets) {
            return false;
        }
    }
    true
}

// The message that a slot's rec took.
fn arrive_slot(slot: &[u32], sizes: Sizes, place: u32, targets: &mut [u32]) -> bool
    requires { TakenFits sizes.words slot.now × (sizes.places * sizes.entries ≤ length targets.old) × (place < most_places) × (sizes.places ≤ most_places) × (sizes.entries ≤ most_entries) }
    ensures { answered result targets.new ≡ arrive_slot sizes.words sizes.places sizes.entries place slot.now targets.old }
{
    if slot[SLOT_KIND] == REC {
        return arrive(
            slot[SLOT_HEAD + sizes.words + slot[SLOT_NUMBER] as usize],
            sizes,
            place,
            targets,
        );
    }
    true
}

// The messages that a place's recs took.
fn arrive_taken(block: &[u32], sizes: Sizes, place: u32, targets: &mut [u32]) -> bool
    requires { NamesFit sizes.words block.now × (sizes.slot ≤ length block.now) × Slots sizes.words sizes.slot sizes.entries (drop sizes.slot block.now) × All (TakenFits sizes.words) (chop sizes.entries sizes.slot (drop sizes.slot block.now)) × (sizes.places * sizes.entries ≤ length targets.old) × (place < most_places) × (sizes.places ≤ most_places) × (sizes.entries ≤ most_entries) }
    ensures { answered result targets.new ≡ arrive_taken sizes.words sizes.slot sizes.entries sizes.places sizes.entries place block.now targets.old }
{
    for slot in block[sizes.slot..].chunks_exact(sizes.slot) {
        if !arrive_slot(slot, sizes, place, targets) {
            return false;
        }
    }
    true
}

// The messages that came to a place: its queue, and what its recs took.
fn arrive_place(block: &[u32], sizes: Sizes, place: u32, targets: &mut [u32]) -> bool
    requires { TakenBlock sizes.words sizes.slot sizes.entries block.now × (sizes.places * sizes.entries ≤ length targets.old) × (place < most_places) × (sizes.places ≤ most_places) × (sizes.entries ≤ most_entries) }
    ensures { answered result targets.new ≡ arrive_place sizes.words sizes.slot sizes.entries sizes.places sizes.entries place block.now targets.old }
{
    let from = SLOT_HEAD + sizes.words;
    if !arrive_all(
        &block[from..from + block[SLOT_QUEUE] as usize],
        sizes,
        place,
        targets,
    ) {
        return false;
    }
    arrive_taken(block, sizes, place, targets)
}

// The messages that came to all places.
pub fn messages(blocks: &[u32], sizes: Sizes, targets: &mut [u32]) -> bool
    requires { (length blocks.now ≡ sizes.places * sizes.block) × All (TakenBlock sizes.words sizes.slot sizes.entries) (chop sizes.places sizes.block blocks.now) × (sizes.places * sizes.entries ≤ length targets.old) × (sizes.places ≤ most_places) × (sizes.entries ≤ most_entries) }
    ensures { answered result targets.new ≡ arrive_from sizes.words sizes.slot sizes.entries sizes.places sizes.entries 0 (chop sizes.places sizes.block blocks.now) targets.old }
{
    // Without places a block may have no words, and there are no chunks of that size.
    if sizes.places == 0 {
        return true;
    }
    for (place, block) in blocks.chunks_exact(sizes.block).enumerate() {
        if !arrive_place(block, sizes, place as u32, targets) {
            return false;
        }
    }
    true
}
