// A message more or less in a queue.
ghost use Rattle.std.specs.Prelude.{◌≡◌, ◌-◌, ◌<◌, get_or};
ghost use Rattle.store.specs.Image.{IsImage};
ghost use Rattle.reading.specs.Reads.{OfState};
ghost use Rattle.writing.specs.Slots.{without, NamesRoom};
ghost use Rattle.writing.specs.Writes.{Leads, Posts, Unposts, CanPost, CanTake};

use crate::slots::{drop_name, push};
use crate::spans::locate;
use store::layout::SLOT_QUEUE;

// The message of that name comes to the end of t's queue.
pub fn post(store: &mut [u32], t: usize, name: u32)
    requires { IsImage store.old × OfState store.old (CanPost t) }
    ensures { Leads store.old store.new (Posts t name) }
{
    let place = locate(store, t, 0);
    let from = place.from;
    let end = place.end;
    push(&mut store[from..end], place.words, name);
}

// The newest name of a slot goes.
fn drop_newest(slot: &mut [u32], words: usize)
    requires { NamesRoom words slot.old × (0 < get_or slot.old 4 0) }
    ensures { slot.new ≡ without words (get_or slot.old 4 0 - 1) slot.old }
{
    let place = slot[SLOT_QUEUE] as usize - 1;
    drop_name(slot, words, place);
}

// The newest message of p's queue goes.
pub fn unpost(store: &mut [u32], p: usize)
    requires { IsImage store.old × OfState store.old (CanTake p 0) }
    ensures { Leads store.old store.new (Unposts p) }
{
    let place = locate(store, p, 0);
    let from = place.from;
    let end = place.end;
    drop_newest(&mut store[from..end], place.words);
}
