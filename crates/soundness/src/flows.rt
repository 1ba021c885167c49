// Flows: what a rec left is a prefix of the queue before the next rec, or of the present one.
ghost use Rattle.std.specs.Prelude.{◌≡◌, [], ◌≤◌, ◌*◌, length, drop};
ghost use Rattle.lists.specs.Lists.{All, chop};
ghost use Rattle.slots.specs.SoundTests.{NamesFit, Slots, Block, names_in, every_of};
ghost use Rattle.soundness.specs.MessageTests.{flows_on, place_flows};

use prefixes::prefixes::left_begins;
use slots::blocks::Sizes;
use store::layout::{REC, SLOT_HEAD, SLOT_KIND, SLOT_NUMBER, SLOT_QUEUE};

// The recs among the entries of a place, oldest first, and the present queue after them.
fn place_flows(block: &[u32], sizes: Sizes) -> bool
    requires { NamesFit sizes.words block.now × (sizes.slot ≤ length block.now) × Slots sizes.words sizes.slot sizes.entries (drop sizes.slot block.now) }
    ensures { result ≡ flows_on sizes.words 0 [] (chop sizes.entries sizes.slot (drop sizes.slot block.now)) (names_in sizes.words block.now) }
{
    let from = SLOT_HEAD + sizes.words;
    let mut before = &block[0..0];
    let mut taken = 0;
    for slot in block[sizes.slot..].chunks_exact(sizes.slot) {
        if slot[SLOT_KIND] == REC {
            let names = &slot[from..from + slot[SLOT_QUEUE] as usize];
            if !left_begins(before, taken, names) {
                return false;
            }
            before = names;
            taken = slot[SLOT_NUMBER] as usize;
        }
    }
    left_begins(
        before,
        taken,
        &block[from..from + block[SLOT_QUEUE] as usize],
    )
}

// The flows of all places.
pub fn flows(blocks: &[u32], sizes: Sizes) -> bool
    requires { (length blocks.now ≡ sizes.places * sizes.block) × All (Block sizes.words sizes.slot sizes.entries) (chop sizes.places sizes.block blocks.now) }
    ensures { result ≡ every_of (place_flows sizes.words sizes.slot sizes.entries) (chop sizes.places sizes.block blocks.now) }
{
    // Without places a block may have no words, and there are no chunks of that size.
    if sizes.places == 0 {
        return true;
    }
    for block in blocks.chunks_exact(sizes.block) {
        if !place_flows(block, sizes) {
            return false;
        }
    }
    true
}
