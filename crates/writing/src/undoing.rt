// An entry less.
ghost use Rattle.std.specs.Prelude.{◌≡◌};
ghost use Rattle.store.specs.Image.{IsImage};
ghost use Rattle.reading.specs.Reads.{OfState};
ghost use Rattle.writing.specs.Slots.{shrunk_words, released_words, TwoSlots};
ghost use Rattle.writing.specs.Writes.{Leads, Undoes, CanUndo};

use crate::slots::{Head, copy_slot};
use crate::spans::{Span, locate};
use kinds::Kind;
use reading::entries::{kind, number};
use reading::state::entry_count;
use store::layout::{LIVE, SLOT_HEAD, SLOT_QUEUE};

// The control before of an entry returns to the present, which stands at `to`, and the entry goes.
fn shrink(store: &mut [u32], entry: Span, to: usize)
    requires { TwoSlots entry.from entry.«end» to entry.words store.old }
    ensures { store.new ≡ shrunk_words entry.from entry.«end» to entry.words store.old }
{
    let from = entry.from;
    let end = entry.end;
    let at = to + SLOT_QUEUE;
    let queued = store[at];
    let head = Head {
        kind: LIVE,
        number: 0,
        queued,
    };
    copy_slot(store, from, to, SLOT_HEAD + entry.words, head);
    store[from..end].fill(0);
}

// The control and the queue before return.
fn release(store: &mut [u32], entry: Span, to: usize)
    requires { TwoSlots entry.from entry.«end» to entry.words store.old }
    ensures { store.new ≡ released_words entry.from entry.«end» to store.old }
{
    let from = entry.from;
    let end = entry.end;
    let at = from + SLOT_QUEUE;
    let queued = store[at];
    let head = Head {
        kind: LIVE,
        number: 0,
        queued,
    };
    copy_slot(store, from, to, end - from, head);
    store[from..end].fill(0);
}

// p's newest entry is undone: the control before it returns, a rec's queue before too, and a spawn's child goes.
pub fn undo(store: &mut [u32], p: usize)
    requires { IsImage store.old × OfState store.old (CanUndo p) }
    ensures { Leads store.old store.new (Undoes p) }
{
    let count = entry_count(store, p);
    let present = locate(store, p, 0);
    let newest = locate(store, p, count);
    match kind(store, p, count - 1) {
        Kind::Rec => release(store, newest, present.from),
        Kind::Spawn => {
            let child = number(store, p, count - 1) as usize;
            let gone = locate(store, child, 0);
            let from = gone.from;
            let end = gone.end;
            shrink(store, newest, present.from);
            store[from..end].fill(0);
        }
        _ => shrink(store, newest, present.from),
    }
}
