// The links of an entry by 01's list: which event depends at once on which.
ghost use Rattle.std.specs.Prelude.{◌≡◌, ◌+◌, ◌≤◌, ◌<◌, length};
ghost use Rattle.rules.specs.Standing.{seen};
ghost use Rattle.store.specs.Image.{IsImage};
ghost use Rattle.store.specs.Layout.{kind_send, kind_rec, kind_spawn};
ghost use Rattle.reading.specs.Reads.{OfState, IsEntry};
ghost use Rattle.links.specs.Listed.{IsKind, OfRec, TiesAt, Adds};

use crate::arrivals::{arrival, recs_before};
use arrayvec::ArrayVec;
use cuts::events::{delivery, entry};
use cuts::link::Link;
use kinds::Kind;
use reading::entries::{kind, number, queue_before};
use reading::mail::{sends_before, target};
use rows::words::NAME_BASE;

// How many arrivals entry i of p, a rec, has seen: its queue before, and the recs before it.
fn seen_by(store: &[u32], p: usize, i: usize) -> usize
    requires { IsImage store.now × OfState store.now (IsEntry p i) }
    ensures { OfState store.now (OfRec p i (λ a m d g. result ≡ seen a m d g)) }
{
    recs_before(store, p, i) + queue_before(store, p, i).len()
}

// A rec depends on the arrivals that it has seen, and those since depend on it.
fn link_rec<const N: usize>(store: &[u32], p: usize, i: usize, links: &mut ArrayVec<Link, N>)
    requires { IsImage store.now × OfState store.now (IsEntry p i) × OfState store.now (IsKind p i kind_rec) × (length links.old.items + 2 ≤ N) }
    ensures { Adds store.now (TiesAt p i) links.old.items links.new.items 2 }
{
    let n = seen_by(store, p, i);
    let own = entry(p, i);
    links.push(Link {
        event: own,
        on: delivery(p, n - 1),
    });
    links.push(Link {
        event: delivery(p, n),
        on: own,
    });
}

// The arrival of a send's message depends on the send.
fn link_send<const N: usize>(store: &[u32], p: usize, i: usize, links: &mut ArrayVec<Link, N>)
    requires { IsImage store.now × OfState store.now (IsEntry p i) × OfState store.now (IsKind p i kind_send) × (length links.old.items < N) }
    ensures { Adds store.now (TiesAt p i) links.old.items links.new.items 2 }
{
    let t = target(store, p, i) as usize;
    let name = p as u32 * NAME_BASE + sends_before(store, p, i);
    if let Some(j) = arrival(store, t, name) {
        links.push(Link {
            event: delivery(t, j),
            on: entry(p, i),
        });
    }
}

// The first events of a spawn's child depend on the spawn.
fn link_spawn<const N: usize>(store: &[u32], p: usize, i: usize, links: &mut ArrayVec<Link, N>)
    requires { IsImage store.now × OfState store.now (IsEntry p i) × OfState store.now (IsKind p i kind_spawn) × (length links.old.items + 2 ≤ N) }
    ensures { Adds store.now (TiesAt p i) links.old.items links.new.items 2 }
{
    let q = number(store, p, i) as usize;
    let own = entry(p, i);
    links.push(Link {
        event: entry(q, 0),
        on: own,
    });
    links.push(Link {
        event: delivery(q, 0),
        on: own,
    });
}

// The links of entry i of p.
pub fn link_entry<const N: usize>(store: &[u32], p: usize, i: usize, links: &mut ArrayVec<Link, N>)
    requires { IsImage store.now × OfState store.now (IsEntry p i) × (length links.old.items + 2 ≤ N) }
    ensures { Adds store.now (TiesAt p i) links.old.items links.new.items 2 }
{
    match kind(store, p, i) {
        Kind::Rec => link_rec(store, p, i, links),
        Kind::Send => link_send(store, p, i, links),
        Kind::Spawn => link_spawn(store, p, i, links),
        _ => {}
    }
}
