// What holds an entry or a message in its place.
ghost use Rattle.std.specs.Prelude.{◌≡◌, length};
ghost use Rattle.rules.specs.State.{history_at};
ghost use Rattle.rules.specs.Flight.{sends, left as left_by, flies};
ghost use Rattle.rules.specs.Commands.{back, untouched as untouched_at, run};
ghost use Rattle.store.specs.Image.{IsImage};
ghost use Rattle.reading.specs.Reads.{OfState, IsPlace, Lives, IsSend, OfSend, oldest};
ghost use Rattle.backward.specs.Undoing.{IsNewest, is_accepted};

use kinds::Kind;
use reading::entries::{kind, number, queue_before};
use reading::mail::{awaited, has_come, sends_before, target};
use reading::state::{entry_count, queue};
use rows::words::NAME_BASE;

// How many messages the newest rec of p left in its queue; 0 where there is none.
pub fn left(store: &[u32], p: usize) -> usize
    requires { IsImage store.now × OfState store.now (IsPlace p) }
    ensures { OfState store.now (λ s. result ≡ length (left_by (history_at s p))) }
{
    for i in (0..entry_count(store, p)).rev() {
        if let Kind::Rec = kind(store, p, i) {
            return queue_before(store, p, i).len() - 1;
        }
    }
    0
}

// Whether the message of entry i of p, a send, is in flight.
fn flying(store: &[u32], p: u32, i: usize) -> bool
    requires { IsImage store.now × OfState store.now (IsSend p i) }
    ensures { OfState store.now (λ s. OfSend p i (λ target value. result ≡ flies s p (sends (oldest i (history_at s p))) target) s) }
{
    let t = target(store, p as usize, i);
    let name = p * NAME_BASE + sends_before(store, p as usize, i);
    !has_come(store, t as usize, name)
}

// Whether the process at q has no entry and no message, and nothing is in flight to it.
fn untouched(store: &[u32], q: usize) -> bool
    requires { IsImage store.now × OfState store.now (Lives q) }
    ensures { OfState store.now (λ s. result ≡ untouched_at s q) }
{
    if 0 < entry_count(store, q) {
        return false;
    }
    if 0 < queue(store, q).len() {
        return false;
    }
    !awaited(store, q)
}

// Whether entry i of p, its newest, may be undone. What a rec left is a prefix of the queue, so the queue is just that where it is as long.
pub fn may_undo(store: &[u32], p: u32, i: usize) -> bool
    requires { IsImage store.now × OfState store.now (IsNewest p i) }
    ensures { OfState store.now (λ s. result ≡ is_accepted (run (back p) s)) }
{
    match kind(store, p as usize, i) {
        Kind::Send => flying(store, p, i),
        Kind::Rec => queue(store, p as usize).len() == left(store, p as usize),
        Kind::Spawn => untouched(store, number(store, p as usize, i) as usize),
        _ => true,
    }
}
