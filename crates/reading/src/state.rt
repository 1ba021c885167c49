// The module, the sizes, and the processes with their controls, queues and histories.
ghost use Rattle.std.specs.Prelude.{◌≡◌, map, length};
ghost use Rattle.rules.specs.State.{history_at, in_pool};
ghost use Rattle.store.specs.Image.{IsImage};
ghost use Rattle.store.specs.Layout.{name_word};
ghost use Rattle.reading.specs.Reads.{OfState, IsPlace, control_at};

use crate::slots::{slot, slot_control, slot_names};
use store::layout::{
    FREE, HEAD, HEAD_ENTRIES, HEAD_MODULE, HEAD_PLACES, HEAD_WORDS, LIVE, SLOT_KIND,
};

// P, H and W.
pub fn places(store: &[u32]) -> usize
    requires { IsImage store.now }
    ensures { OfState store.now (λ s. result ≡ s.sizes.places) }
{
    store[HEAD_PLACES] as usize
}

pub fn most_entries(store: &[u32]) -> usize
    requires { IsImage store.now }
    ensures { OfState store.now (λ s. result ≡ s.sizes.entries) }
{
    store[HEAD_ENTRIES] as usize
}

pub fn most_words(store: &[u32]) -> usize
    requires { IsImage store.now }
    ensures { OfState store.now (λ s. result ≡ s.sizes.words) }
{
    store[HEAD_WORDS] as usize
}

// The module's words.
pub fn program<'a>(store: &'a [u32]) -> &'a [u32]
    requires { IsImage store.now }
    ensures { OfState store.now (λ s. result.now ≡ s.module') }
{
    &store[HEAD..HEAD + store[HEAD_MODULE] as usize]
}

// Whether a place is in the pool.
pub fn in_pool(store: &[u32], p: u32) -> bool
    requires { IsImage store.now }
    ensures { OfState store.now (λ s. result ≡ in_pool s p) }
{
    p < store[HEAD_PLACES] && slot(store, p as usize, 0)[SLOT_KIND] == LIVE
}

// The control of the process at p; empty where none is.
pub fn control<'a>(store: &'a [u32], p: usize) -> &'a [u32]
    requires { IsImage store.now × OfState store.now (IsPlace p) }
    ensures { OfState store.now (λ s. result.now ≡ control_at s p) }
{
    slot_control(slot(store, p, 0))
}

// The queue at p, by names, oldest first.
pub fn queue<'a>(store: &'a [u32], p: usize) -> &'a [u32]
    requires { IsImage store.now × OfState store.now (IsPlace p) }
    ensures { OfState store.now (λ s. result.now ≡ map name_word (s.queues p)) }
{
    slot_names(slot(store, p, 0), most_words(store))
}

// How many entries place p has.
pub fn entry_count(store: &[u32], p: usize) -> usize
    requires { IsImage store.now × OfState store.now (IsPlace p) }
    ensures { OfState store.now (λ s. result ≡ length (history_at s p)) }
{
    let most = most_entries(store);
    for i in 0..most {
        if slot(store, p, i + 1)[SLOT_KIND] == FREE {
            return i;
        }
    }
    most
}
