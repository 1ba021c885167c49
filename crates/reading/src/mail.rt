// Messages: where their sends stand, where they went, whether they are in flight.
ghost use Rattle.std.specs.Prelude.{◌≡◌, [], ◌+◌, ◌*◌, ◌-◌, ◌/◌, ◌%◌, ◌≤◌, length, take, drop};
ghost use Rattle.lists.specs.Lists.{any, up_to};
ghost use Rattle.rules.specs.State.{as_send, as_rec, history_at, is_named};
ghost use Rattle.rules.specs.Flight.{count_letter, sends as sends_of, also_taken, taken, has_come, flies_to, awaited as awaited_of};
ghost use Rattle.store.specs.Image.{IsImage};
ghost use Rattle.store.specs.Layout.{name_base};
ghost use Rattle.reading.specs.Mail.{flies_by};
ghost use Rattle.reading.specs.Reads.{OfState, IsPlace, IsEntry, OfEntry, IsSend, OfSend, oldest, SendFound};

use crate::entries::{before, count_of, kind, number, queue_before};
use crate::state::{entry_count, places, queue};
use kinds::Kind;
use rows::words::NAME_BASE;
use step::control::sent;
use step::work::{Doing, about_to};

// What `target` gives where no send is: never, since it is asked of sends alone.
const NO_TARGET: u32 = 0;

// The place that entry i of p, a send, sent to.
pub fn target(store: &[u32], p: usize, i: usize) -> u32
    requires { IsImage store.now × OfState store.now (IsSend p i) }
    ensures { OfState store.now (OfSend p i (λ target value. result ≡ target)) }
{
    let doing = about_to(before(store, p, i));
    let Doing::Send(t) = doing else {
        return NO_TARGET;
    };
    t
}

// What stands from one place to another, as much of it as there is.
fn part_of<'a>(row: &'a [u32], from: usize, to: usize) -> &'a [u32]
    ensures { result.now ≡ take (to - from) (drop from row.now) }
{
    if to <= from {
        return &row[..0];
    }
    if row.len() <= from {
        return &row[..0];
    }
    if row.len() < to {
        return &row[from..];
    }
    &row[from..to]
}

// The value that it sent.
pub fn value<'a>(store: &'a [u32], p: usize, i: usize) -> &'a [u32]
    requires { IsImage store.now × OfState store.now (IsSend p i) }
    ensures { OfState store.now (OfSend p i (λ target value. result.now ≡ value)) }
{
    let c = before(store, p, i);
    let part = sent(c);
    part_of(c, part.from, part.to)
}

// 1 for a send, 0 for another entry.
fn send_at(store: &[u32], p: usize, i: usize) -> u32
    requires { IsImage store.now × OfState store.now (IsEntry p i) }
    ensures { OfState store.now (OfEntry p i (λ e. result ≡ count_letter (as_send e.kind) 0)) }
{
    match kind(store, p, i) {
        Kind::Send => 1,
        _ => 0,
    }
}

// How many of the entries older than entry i of p are sends; of all entries, where i is how many there are.
pub fn sends_before(store: &[u32], p: usize, i: usize) -> u32
    requires { IsImage store.now × OfState store.now (IsPlace p) × OfState store.now (λ s. i ≤ length (history_at s p)) }
    ensures { OfState store.now (λ s. result ≡ sends_of (oldest i (history_at s p))) }
{
    count_of(store, p, i, Kind::Send) as u32
}

// The entry of p that is its send of that count.
pub fn find_send(store: &[u32], p: usize, count: u32) -> Option<usize>
    requires { IsImage store.now × OfState store.now (IsPlace p) }
    ensures { OfState store.now (λ s. SendFound (history_at s p) count result) }
{
    let mut left = count;
    for i in 0..entry_count(store, p) {
        let here = send_at(store, p, i);
        if left < here {
            return Some(i);
        }
        left -= here;
    }
    None
}

// Whether entry i of t is a rec that took the message of that name.
fn took(store: &[u32], t: usize, i: usize, name: u32) -> bool
    requires { IsImage store.now × OfState store.now (IsEntry t i) }
    ensures { OfState store.now (OfEntry t i (λ e. result ≡ any (is_named (name / name_base) (name % name_base)) (also_taken (as_rec e.kind) []))) }
{
    match kind(store, t, i) {
        Kind::Rec => {
            let at = number(store, t, i) as usize;
            queue_before(store, t, i)[at] == name
        }
        _ => false,
    }
}

// Whether a rec of t took the message of that name.
fn received(store: &[u32], t: usize, name: u32) -> bool
    requires { IsImage store.now × OfState store.now (IsPlace t) }
    ensures { OfState store.now (λ s. result ≡ any (is_named (name / name_base) (name % name_base)) (taken (history_at s t))) }
{
    for i in 0..entry_count(store, t) {
        if took(store, t, i, name) {
            return true;
        }
    }
    false
}

// Whether the message of that name has come to t.
pub fn has_come(store: &[u32], t: usize, name: u32) -> bool
    requires { IsImage store.now × OfState store.now (IsPlace t) }
    ensures { OfState store.now (λ s. result ≡ has_come s (name / name_base) (name % name_base) t) }
{
    queue(store, t).contains(&name) || received(store, t, name)
}

// Whether entry i of s is a send whose message is in flight to q, where its name would be this one.
fn flies_to(store: &[u32], s: usize, i: usize, q: u32, name: u32) -> bool
    requires { IsImage store.now × OfState store.now (IsEntry s i) × OfState store.now (IsPlace q) × OfState store.now (λ st. name ≡ s * name_base + sends_of (oldest i (history_at st s))) }
    ensures { OfState store.now (λ st. OfEntry s i (λ e. result ≡ flies_by st q s i (as_send e.kind)) st) }
{
    if send_at(store, s, i) == 0 {
        return false;
    }
    target(store, s, i) == q && !has_come(store, q as usize, name)
}

// Whether a message of place s is in flight to q.
fn awaited_from(store: &[u32], s: usize, q: u32) -> bool
    requires { IsImage store.now × OfState store.now (IsPlace s) × OfState store.now (IsPlace q) }
    ensures { OfState store.now (λ st. result ≡ any (flies_to st q s) (up_to (sends_of (history_at st s)))) }
{
    let mut name = s as u32 * NAME_BASE;
    for i in 0..entry_count(store, s) {
        if flies_to(store, s, i, q, name) {
            return true;
        }
        name += send_at(store, s, i);
    }
    false
}

// Whether any message is in flight to q.
pub fn awaited(store: &[u32], q: usize) -> bool
    requires { IsImage store.now × OfState store.now (IsPlace q) }
    ensures { OfState store.now (λ s. result ≡ awaited_of s q) }
{
    for s in 0..places(store) {
        if awaited_from(store, s, q as u32) {
            return true;
        }
    }
    false
}
