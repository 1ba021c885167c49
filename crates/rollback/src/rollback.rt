// Rollback.
ghost use Rattle.store.specs.Image.{IsImage};
ghost use Rattle.calls.specs.Numbers.{RollbackCall};
ghost use Rattle.reading.specs.Reads.{OfState, IsPlace};
ghost use Rattle.cuts.specs.Links.{Levels, Links};
ghost use Rattle.rollback.specs.Undone.{FindsCheck, Happens, EventBack, OfWords};

use crate::down::undo_to;
use calls::answers::{Answer, Refusal};
use cuts::bounds::LINES;
use cuts::cut::settled;
use cuts::events::{Event, entry};
use cuts::link::{Link, LinkVec};
use kinds::Kind;
use links::arrivals::levels;
use links::collecting::{Aims, Ties, collect};
use reading::entries::is_numbered;
use reading::state::{entry_count, in_pool};
use soundness::sound::sound;

// The newest check entry t of p.
fn newest_check(store: &[u32], p: usize, t: u32) -> Option<usize>
    requires { IsImage store.now × OfState store.now (IsPlace p) }
    ensures { OfState store.now (FindsCheck p t result) }
{
    for i in (0..entry_count(store, p)).rev() {
        if is_numbered(store, p, i, Kind::Check, t) {
            return Some(i);
        }
    }
    None
}

// With the numbers of the state, of which the first few links are 01's list: an event is undone with all events that depend on it, or
// nothing is. The links are not split in two: `settled` takes the first few, `undo_to` all of them.
fn event_back(
    store: &mut [u32],
    links: &[Link],
    few: usize,
    levels: &[usize; LINES],
    event: Event,
) -> Answer
    requires { IsImage store.old × OfState store.old (λ s. Links s links.now few) × OfState store.old (λ s. Levels s levels.now) × OfState store.old (Happens event.line event.index) }
    ensures { OfWords store.old (EventBack event.line event.index store.new result) }
{
    let cut = settled(&links[..few], levels, event);
    undo_to(store, links, &cut, levels)
}

// An event is undone with all events that depend on it, or nothing is.
pub fn take_back(store: &mut [u32], event: Event) -> Answer
    requires { IsImage store.old × OfState store.old (Happens event.line event.index) }
    ensures { OfWords store.old (EventBack event.line event.index store.new result) }
{
    let level = levels(store);
    let mut links = LinkVec::new();
    collect::<Ties>(store, &mut links);
    let few = links.len();
    collect::<Aims>(store, &mut links);
    event_back(store, links.as_slice(), few, &level, event)
}

// rollback p t
pub fn rollback(store: &mut [u32], p: u32, t: u32) -> Answer
    ensures { RollbackCall p t store.old store.new result }
{
    if !sound(store) {
        return Err(Refusal::NotAState);
    }
    if !in_pool(store, p) {
        return Err(Refusal::NoProcess);
    }
    let index = newest_check(store, p as usize, t).ok_or(Refusal::NoCheckpoint)?;
    take_back(store, entry(p as usize, index))
}
