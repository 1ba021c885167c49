// The entries of a history, counted from 0 and the oldest.
ghost use Rattle.std.specs.Prelude.{◌≡◌, ◌≤◌, map, length, count_by};
ghost use Rattle.rules.specs.State.{as_rec, history_at};
ghost use Rattle.rules.specs.Depends.{queue_before};
ghost use Rattle.store.specs.Image.{IsImage};
ghost use Rattle.store.specs.Layout.{kind_seq, kind_check, kind_number, number_in, name_word};
ghost use Rattle.reading.specs.Reads.{OfState, IsEntry, OfEntry, oldest, number_of, is_kind, is_numbered};

use crate::slots::{slot, slot_control, slot_names};
use crate::state::most_words;
use kinds::Kind;
use store::layout::{REC, SELF, SEND, SEQ, SLOT_KIND, SLOT_NUMBER, SPAWN};

// The kind that a number of the layout stands for. No other number stands in a state, so `TryFrom` would only bring a refusal that never is.
fn kind_of(word: u32) -> Kind
    ensures { kind_seq ≤ word → word ≤ kind_check → number_of result ≡ word }
{
    match word {
        SEQ => Kind::Seq,
        SEND => Kind::Send,
        REC => Kind::Rec,
        SPAWN => Kind::Spawn,
        SELF => Kind::Own,
        _ => Kind::Check,
    }
}

// The kind of entry i of p.
pub fn kind(store: &[u32], p: usize, i: usize) -> Kind
    requires { IsImage store.now × OfState store.now (IsEntry p i) }
    ensures { OfState store.now (OfEntry p i (λ e. number_of result ≡ kind_number e.kind)) }
{
    kind_of(slot(store, p, i + 1)[SLOT_KIND])
}

// Whether entry i of p is of a kind and has that number.
pub fn is_numbered(store: &[u32], p: usize, i: usize, wanted: Kind, value: u32) -> bool
    requires { IsImage store.now × OfState store.now (IsEntry p i) }
    ensures { OfState store.now (OfEntry p i (λ e. result ≡ is_numbered wanted value e)) }
{
    kind(store, p, i) == wanted && number(store, p, i) == value
}

// How many of the oldest i entries of p are of a kind.
pub fn count_of(store: &[u32], p: usize, i: usize, wanted: Kind) -> usize
    requires { IsImage store.now × OfState store.now (λ s. i ≤ length (history_at s p)) }
    ensures { OfState store.now (λ s. result ≡ count_by (is_kind wanted) (oldest i (history_at s p))) × (result ≤ i) }
{
    let mut count = 0;
    for j in 0..i {
        if kind(store, p, j) == wanted {
            count += 1;
        }
    }
    count
}

// The number that goes with it: the place of a rec's message in the queue before, a spawn's child, a check's number.
pub fn number(store: &[u32], p: usize, i: usize) -> u32
    requires { IsImage store.now × OfState store.now (IsEntry p i) }
    ensures { OfState store.now (OfEntry p i (λ e. result ≡ number_in e.kind)) }
{
    slot(store, p, i + 1)[SLOT_NUMBER]
}

// The control before.
pub fn before<'a>(store: &'a [u32], p: usize, i: usize) -> &'a [u32]
    requires { IsImage store.now × OfState store.now (IsEntry p i) }
    ensures { OfState store.now (OfEntry p i (λ e. result.now ≡ e.before)) }
{
    slot_control(slot(store, p, i + 1))
}

// The queue before of a rec, by names; empty of another entry.
pub fn queue_before<'a>(store: &'a [u32], p: usize, i: usize) -> &'a [u32]
    requires { IsImage store.now × OfState store.now (IsEntry p i) }
    ensures { OfState store.now (OfEntry p i (λ e. result.now ≡ map name_word (queue_before (as_rec e.kind)))) }
{
    slot_names(slot(store, p, i + 1), most_words(store))
}
