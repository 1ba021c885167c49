// The slots of a store.
ghost use Rattle.std.specs.Prelude.{◌≡◌, ◌+◌, ◌≤◌, length, take, drop, get_or};
ghost use Rattle.store.specs.Image.{IsImage};
ghost use Rattle.store.specs.Layout.{slot_head, free_slot, slot_words, slots_at};
ghost use Rattle.reading.specs.Reads.{OfState, IsPlace};

use store::layout::{SLOT_HEAD, SLOT_QUEUE, SLOT_WORDS};
use store::sizes::Sizes;

// The words of slot i of place p.
pub fn slot<'a>(store: &'a [u32], p: usize, i: usize) -> &'a [u32]
    requires { IsImage store.now × OfState store.now (IsPlace p) × OfState store.now (λ s. i ≤ s.sizes.entries) }
    ensures { OfState store.now (λ s. result.now ≡ slot_words s.sizes (get_or (slots_at s p) i free_slot)) }
{
    let sizes = Sizes::at_head(store);
    let at = sizes.slot_start(p, i);
    &store[at..at + sizes.slot]
}

// The control of a slot.
pub fn slot_control<'a>(slot: &'a [u32]) -> &'a [u32]
    requires { (slot_head ≤ length slot.now) × (slot_head + get_or slot.now 1 0 ≤ length slot.now) }
    ensures { result.now ≡ take (get_or slot.now 1 0) (drop slot_head slot.now) }
{
    &slot[SLOT_HEAD..SLOT_HEAD + slot[SLOT_WORDS] as usize]
}

// The names of a slot, which stand behind the room for its control.
pub fn slot_names<'a>(slot: &'a [u32], words: usize) -> &'a [u32]
    requires { (slot_head ≤ length slot.now) × (slot_head + words + get_or slot.now 4 0 ≤ length slot.now) }
    ensures { result.now ≡ take (get_or slot.now 4 0) (drop (slot_head + words) slot.now) }
{
    &slot[SLOT_HEAD + words..SLOT_HEAD + words + slot[SLOT_QUEUE] as usize]
}
