// Sends: the target of each send by its sender and count, every target live.
ghost use Rattle.std.specs.Prelude.{◌≡◌, ◌+◌, ◌*◌, ◌≤◌, length, drop};
ghost use Rattle.lists.specs.Lists.{All, chop};
ghost use Rattle.store.specs.Layout.{most_places, longest_slot};
ghost use Rattle.slots.specs.SoundTests.{ControlFits, Slots, ControlBlock};
ghost use Rattle.slots.specs.SendTests.{SentIs, NotesPlace, NotesPlaces};

use step::work::{Doing, about_to};
use store::layout::{SEND, SLOT_HEAD, SLOT_KIND, SLOT_WORDS};
use store::sizes::Sizes;

// What a slot says of sends: it is none, a send to a live place, or a send that its control is not about to make or to no live place.
// Three cases that one match tells apart by their names: `Result<Option<u32>, E>` would be no plainer.
#[derive(Clone, Copy)]
pub enum Sent {
    No,
    To(u32),
    Bad,
}

// The target of a slot's send.
fn slot_sends(slot: &[u32], live: &[bool]) -> Sent
    requires { ControlFits slot.now × (length slot.now ≤ longest_slot) }
    ensures { SentIs live.now slot.now result }
{
    if slot[SLOT_KIND] != SEND {
        return Sent::No;
    }
    let doing = about_to(&slot[SLOT_HEAD..SLOT_HEAD + slot[SLOT_WORDS] as usize]);
    let Doing::Send(target) = doing else {
        return Sent::Bad;
    };
    let place = target as usize;
    if live.len() <= place {
        return Sent::Bad;
    }
    if live[place] {
        return Sent::To(target);
    }
    Sent::Bad
}

// Notes the targets of a place's sends in their order, from a place in the table on: one more than each, since 0 stands where none is,
// as `NotesPlace` says.
fn note_place(block: &[u32], sizes: Sizes, live: &[bool], at: usize, targets: &mut [u32]) -> bool
    requires { (sizes.slot ≤ length block.now) × Slots 0 sizes.slot sizes.entries (drop sizes.slot block.now) × All ControlFits (chop sizes.entries sizes.slot (drop sizes.slot block.now)) × (length live.now ≡ most_places) × (at + sizes.entries ≤ length targets.old) }
    ensures { NotesPlace live.now sizes.slot sizes.entries at block.now targets.old targets.new result }
{
    let mut k = at;
    for slot in block[sizes.slot..].chunks_exact(sizes.slot) {
        match slot_sends(slot, live) {
            Sent::Bad => return false,
            Sent::No => {}
            Sent::To(target) => {
                targets[k] = target + 1;
                k += 1;
            }
        }
    }
    true
}

// Notes the targets of all sends, a row of words for each place, one for each of its entries. The row is told by where it begins, not
// lent: `NotesPlaces` speaks of the whole table.
pub fn note_places(blocks: &[u32], sizes: Sizes, live: &[bool], targets: &mut [u32]) -> bool
    requires { (length blocks.now ≡ sizes.places * sizes.block) × All (ControlBlock sizes.slot sizes.entries) (chop sizes.places sizes.block blocks.now) × (length live.now ≡ most_places) × (sizes.places * sizes.entries ≤ length targets.old) }
    ensures { NotesPlaces live.now sizes.slot sizes.entries (chop sizes.places sizes.block blocks.now) targets.old targets.new result }
{
    let mut at = 0;
    for block in blocks.chunks_exact(sizes.block) {
        if !note_place(block, sizes, live, at, targets) {
            return false;
        }
        at += sizes.entries;
    }
    true
}
