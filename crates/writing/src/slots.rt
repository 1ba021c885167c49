// Writing into one slot, lent as its words.
ghost use Rattle.std.specs.Prelude.{◌≡◌, ◌+◌, ◌<◌, length, get_or};
ghost use Rattle.store.specs.Layout.{slot_head, kind_live};
ghost use Rattle.writing.specs.Slots.{controlled, pushed, without, begun, copied, ControlRoom, NamesRoom, CopyRoom};

use store::fill::fill;
use store::layout::{
    LIVE, NAMES_ROOM, SLOT_HEAD, SLOT_KIND, SLOT_NUMBER, SLOT_QUEUE, SLOT_ROOM, SLOT_WORDS,
};

// Another control.
pub fn set_control(slot: &mut [u32], words: usize, control: &[u32])
    requires { ControlRoom words control.now slot.old }
    ensures { slot.new ≡ controlled words control.now slot.old }
{
    slot[SLOT_WORDS] = control.len() as u32;
    let end = SLOT_HEAD + words;
    fill(&mut slot[SLOT_HEAD..end], control);
}

// The present of a new process, where zeros were.
pub fn begin(slot: &mut [u32], words: usize, control: &[u32])
    requires { ControlRoom words control.now slot.old }
    ensures { slot.new ≡ begun words kind_live control.now slot.old }
{
    slot[SLOT_KIND] = LIVE;
    set_control(slot, words, control);
}

// One name more, behind the others.
pub fn push(slot: &mut [u32], words: usize, name: u32)
    requires { NamesRoom words slot.old × (slot_head + words + get_or slot.old 4 0 < length slot.old) }
    ensures { slot.new ≡ pushed words name slot.old }
{
    let count = slot[SLOT_QUEUE];
    let at = SLOT_HEAD + words + count as usize;
    slot[at] = name;
    slot[SLOT_QUEUE] = count + 1;
}

// The name at a place goes, and those behind it move up.
pub fn drop_name(slot: &mut [u32], words: usize, place: usize)
    requires { NamesRoom words slot.old × (place < get_or slot.old 4 0) }
    ensures { slot.new ≡ without words place slot.old }
{
    let count = slot[SLOT_QUEUE] as usize;
    let from = SLOT_HEAD + words + place;
    let behind = from + 1;
    let end = SLOT_HEAD + words + count;
    let mut held = [0u32; NAMES_ROOM];
    fill(&mut held, &slot[behind..end]);
    let all = slot.len();
    fill(&mut slot[from..all], &held);
    slot[SLOT_QUEUE] = (count - 1) as u32;
}

// What a slot's head says beside the length of its control.
#[derive(Clone, Copy)]
pub struct Head {
    pub kind: u32,
    pub number: u32,
    pub queued: u32,
}

// The first words of a slot copied into another, with another kind, number and count of messages.
pub fn copy_slot(store: &mut [u32], from: usize, to: usize, count: usize, head: Head)
    requires { CopyRoom from to count store.old }
    ensures { store.new ≡ copied from to count head.kind head.number head.queued store.old }
{
    let mut held = [0u32; SLOT_ROOM];
    let from_end = from + count;
    fill(&mut held, &store[from..from_end]);
    held[SLOT_KIND] = head.kind;
    held[SLOT_NUMBER] = head.number;
    held[SLOT_QUEUE] = head.queued;
    let to_end = to + count;
    fill(&mut store[to..to_end], &held);
}
