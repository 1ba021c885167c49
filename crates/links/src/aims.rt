// What undoing asks besides 01's list: a spawn is not undone while something is in flight to its child, so each send is linked with the
// spawn of its target.
ghost use Rattle.std.specs.Prelude.{◌<◌, length};
ghost use Rattle.store.specs.Image.{IsImage};
ghost use Rattle.store.specs.Layout.{kind_send};
ghost use Rattle.reading.specs.Reads.{OfState, IsPlace, IsEntry};
ghost use Rattle.links.specs.Listed.{IsKind, SpawnIn, BornBy, AimsAt, Adds};

use arrayvec::ArrayVec;
use cuts::events::{Event, entry};
use cuts::link::Link;
use kinds::Kind;
use reading::entries::{is_numbered, kind};
use reading::mail::target;
use reading::state::{entry_count, places};

// The entry of p that is the spawn of q.
fn spawn_in(store: &[u32], p: usize, q: u32) -> Option<usize>
    requires { IsImage store.now × OfState store.now (IsPlace p) }
    ensures { OfState store.now (SpawnIn p q result) }
{
    for i in 0..entry_count(store, p) {
        if is_numbered(store, p, i, Kind::Spawn, q) {
            return Some(i);
        }
    }
    None
}

// The spawn of q; place 0 has none.
fn spawn_of(store: &[u32], q: u32) -> Option<Event>
    requires { IsImage store.now }
    ensures { OfState store.now (BornBy q result) }
{
    if q == 0 {
        return None;
    }
    for p in 0..places(store) {
        if let Some(i) = spawn_in(store, p, q) {
            return Some(entry(p, i));
        }
    }
    None
}

// The link of entry i of p, a send.
fn aim_send<const N: usize>(store: &[u32], p: usize, i: usize, links: &mut ArrayVec<Link, N>)
    requires { IsImage store.now × OfState store.now (IsEntry p i) × OfState store.now (IsKind p i kind_send) × (length links.old.items < N) }
    ensures { Adds store.now (AimsAt p i) links.old.items links.new.items 1 }
{
    if let Some(spawn) = spawn_of(store, target(store, p, i)) {
        links.push(Link {
            event: entry(p, i),
            on: spawn,
        });
    }
}

// Of any entry.
pub fn aim_entry<const N: usize>(store: &[u32], p: usize, i: usize, links: &mut ArrayVec<Link, N>)
    requires { IsImage store.now × OfState store.now (IsEntry p i) × (length links.old.items < N) }
    ensures { Adds store.now (AimsAt p i) links.old.items links.new.items 1 }
{
    if let Kind::Send = kind(store, p, i) {
        aim_send(store, p, i, links);
    }
}
