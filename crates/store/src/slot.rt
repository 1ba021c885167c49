// Slots: how long their controls and queues are.
ghost use Rattle.std.specs.Prelude.{◌≡◌, ◌≤◌, length, get_or};
ghost use Rattle.store.specs.Layout.{slot_head};

use crate::layout::{SLOT_QUEUE, SLOT_WORDS};

// How many words its control has.
pub fn control_length(slot: &[u32]) -> usize
    requires { slot_head ≤ length slot.now }
    ensures { result ≡ get_or slot.now 1 0 }
{
    slot[SLOT_WORDS] as usize
}

// How many messages its queue has.
pub fn queue_length(slot: &[u32]) -> usize
    requires { slot_head ≤ length slot.now }
    ensures { result ≡ get_or slot.now 4 0 }
{
    slot[SLOT_QUEUE] as usize
}
