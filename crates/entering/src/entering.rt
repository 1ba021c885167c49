// An entry more.
ghost use Rattle.std.specs.Prelude.{◌≡◌};
ghost use Rattle.store.specs.Image.{IsImage};
ghost use Rattle.reading.specs.Reads.{OfState};
ghost use Rattle.writing.specs.Slots.{controlled, without};
ghost use Rattle.writing.specs.Writes.{Leads, CanTake};
ghost use Rattle.entering.specs.Entering.{grown_words, took_words, GrowRoom, TakeRoom, InRoom, Enters, Takes, Spawns, CanGrow, CanSpawn};

use reading::state::entry_count;
use store::layout::{REC, SLOT_HEAD, SLOT_QUEUE, SPAWN};
use writing::slots::{Head, begin, copy_slot, drop_name, set_control};
use writing::spans::{Span, locate};

// The present becomes the entry at `to` without its queue, and the next control comes.
fn grow(store: &mut [u32], present: Span, to: usize, kind: u32, number: u32, next: &[u32])
    requires { GrowRoom present.from present.«end» to present.words next.now store.old }
    ensures { store.new ≡ grown_words present.from present.«end» to present.words kind number next.now store.old }
{
    let from = present.from;
    let end = present.end;
    let head = Head {
        kind,
        number,
        queued: 0,
    };
    copy_slot(store, from, to, SLOT_HEAD + present.words, head);
    set_control(&mut store[from..end], present.words, next);
}

// p makes an entry that is neither a rec nor a spawn, and its next control comes.
pub fn enter(store: &mut [u32], p: usize, kind: u32, number: u32, next: &[u32])
    requires { IsImage store.old × OfState store.old (CanGrow p next.now) }
    ensures { Leads store.old store.new (Enters p kind number next.now) }
{
    let count = entry_count(store, p);
    let present = locate(store, p, 0);
    let made = locate(store, p, count + 1);
    grow(store, present, made.from, kind, number, next);
}

// The present without the name at a place, and with the next control.
fn take_out(slot: &mut [u32], words: usize, place: usize, next: &[u32])
    requires { InRoom words place next.now slot.old }
    ensures { slot.new ≡ controlled words next.now (without words place slot.old) }
{
    drop_name(slot, words, place);
    set_control(slot, words, next);
}

// The present becomes the entry at `to` with its queue; the name at a place goes and the next control comes.
fn take(store: &mut [u32], present: Span, to: usize, place: usize, next: &[u32])
    requires { TakeRoom present.from present.«end» to present.words place next.now store.old }
    ensures { store.new ≡ took_words present.from present.«end» to present.words place next.now store.old }
{
    let from = present.from;
    let end = present.end;
    let at = from + SLOT_QUEUE;
    let queued = store[at];
    let number = place as u32;
    let head = Head {
        kind: REC,
        number,
        queued,
    };
    copy_slot(store, from, to, end - from, head);
    take_out(&mut store[from..end], present.words, place, next);
}

// p receives the message at a place of its queue.
pub fn receive(store: &mut [u32], p: usize, place: usize, next: &[u32])
    requires { IsImage store.old × OfState store.old (CanGrow p next.now) × OfState store.old (CanTake p place) }
    ensures { Leads store.old store.new (Takes p place next.now) }
{
    let count = entry_count(store, p);
    let present = locate(store, p, 0);
    let made = locate(store, p, count + 1);
    take(store, present, made.from, place, next);
}

// p spawns a process into place f.
pub fn bear(store: &mut [u32], p: usize, f: usize, next: &[u32], first: &[u32])
    requires { IsImage store.old × OfState store.old (CanGrow p next.now) × OfState store.old (CanSpawn f first.now) }
    ensures { Leads store.old store.new (Spawns p f next.now first.now) }
{
    let count = entry_count(store, p);
    let present = locate(store, p, 0);
    let made = locate(store, p, count + 1);
    let child = locate(store, f, 0);
    let from = child.from;
    let end = child.end;
    grow(store, present, made.from, SPAWN, f as u32, next);
    begin(&mut store[from..end], child.words, first);
}
