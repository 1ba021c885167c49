// Births: each live place but 0 is the child of exactly one spawn entry, place 0 of none, children are live.
ghost use Rattle.std.specs.Prelude.{◌≡◌, ◌≤◌, ◌*◌, false, length, drop, replicate};
ghost use Rattle.lists.specs.Lists.{All, chop};
ghost use Rattle.lists.specs.Decides.{Decides};
ghost use Rattle.store.specs.Layout.{slot_head, most_places};
ghost use Rattle.slots.specs.SoundTests.{Slots, Block, AllBorn, Births, live_from, answered, run_all, bear_one, bear_slot, bear_place};

use store::layout::{FREE, PLACES_ROOM, SLOT_KIND, SLOT_NUMBER, SPAWN};
use store::sizes::Sizes;

// One child more: a live place but 0 that was no child yet.
fn bear(child: usize, live: &[bool], born: &mut [bool]) -> bool
    requires { length live.now ≡ length born.old }
    ensures { answered result born.new ≡ bear_one child live.now born.old }
{
    if child == 0 {
        return false;
    }
    if live.len() <= child {
        return false;
    }
    if !live[child] {
        return false;
    }
    if born[child] {
        return false;
    }
    born[child] = true;
    true
}

// The child of a slot, if it is a spawn's.
fn bear_slot(slot: &[u32], live: &[bool], born: &mut [bool]) -> bool
    requires { (slot_head ≤ length slot.now) × (length live.now ≡ length born.old) }
    ensures { answered result born.new ≡ bear_slot live.now slot.now born.old }
{
    if slot[SLOT_KIND] == SPAWN {
        return bear(slot[SLOT_NUMBER] as usize, live, born);
    }
    true
}

// The children of a place's spawns.
fn bear_place(block: &[u32], sizes: Sizes, live: &[bool], born: &mut [bool]) -> bool
    requires { (sizes.slot ≤ length block.now) × Slots 0 sizes.slot sizes.entries (drop sizes.slot block.now) × (length live.now ≡ length born.old) }
    ensures { answered result born.new ≡ bear_place sizes.slot sizes.entries live.now block.now born.old }
{
    for slot in block[sizes.slot..].chunks_exact(sizes.slot) {
        if !bear_slot(slot, live, born) {
            return false;
        }
    }
    true
}

// Each live place but 0 was born.
fn all_born(live: &[bool], born: &[bool]) -> bool
    requires { length live.now ≡ length born.now }
    ensures { Decides (AllBorn live.now born.now) result }
{
    for q in 1..live.len() {
        if live[q] && !born[q] {
            return false;
        }
    }
    true
}

// The children of all places.
fn bear_places(blocks: &[u32], sizes: Sizes, live: &[bool], born: &mut [bool]) -> bool
    requires { (length blocks.now ≡ sizes.places * sizes.block) × All (Block 0 sizes.slot sizes.entries) (chop sizes.places sizes.block blocks.now) × (length live.now ≡ length born.old) }
    ensures { answered result born.new ≡ run_all (bear_place sizes.slot sizes.entries live.now) (chop sizes.places sizes.block blocks.now) born.old }
{
    for block in blocks.chunks_exact(sizes.block) {
        if !bear_place(block, sizes, live, born) {
            return false;
        }
    }
    true
}

// The clause about births, by marks of the children.
pub fn births(blocks: &[u32], sizes: Sizes, live: &[bool]) -> bool
    requires { (length blocks.now ≡ sizes.places * sizes.block) × All (Block 0 sizes.slot sizes.entries) (chop sizes.places sizes.block blocks.now) × (length live.now ≡ most_places) }
    ensures { Decides (Births sizes.slot sizes.entries live.now (chop sizes.places sizes.block blocks.now)) result }
{
    let mut born = [false; PLACES_ROOM];
    if !bear_places(blocks, sizes, live, &mut born) {
        return false;
    }
    all_born(live, &born)
}

// Which places have a process: those whose first slot is not free.
pub fn live_places(blocks: &[u32], sizes: Sizes) -> [bool; PLACES_ROOM]
    requires { length blocks.now ≡ sizes.places * sizes.block }
    ensures { result ≡ live_from 0 (chop sizes.places sizes.block blocks.now) (replicate most_places false) }
{
    let mut live = [false; PLACES_ROOM];
    for (p, block) in blocks.chunks_exact(sizes.block).enumerate() {
        live[p] = block[SLOT_KIND] != FREE;
    }
    live
}
