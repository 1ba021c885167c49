// Arrivals: how many messages have come to a place, and which of them a message is.
ghost use Rattle.std.specs.Prelude.{◌≡◌, ◌≤◌, length};
ghost use Rattle.rules.specs.State.{history_at};
ghost use Rattle.rules.specs.Flight.{taken};
ghost use Rattle.store.specs.Image.{IsImage};
ghost use Rattle.reading.specs.Reads.{OfState, IsPlace, IsEntry, oldest};
ghost use Rattle.cuts.specs.Links.{Levels};
ghost use Rattle.links.specs.Listed.{PlaceFrom, ArrivalIs, ComeCount, LeftAt};

use cuts::bounds::LINES;
use cuts::events::{deliveries_line, entries_line};
use kinds::Kind;
use reading::entries::{count_of, kind, queue_before};
use reading::state::{entry_count, places, queue};

// How many of the entries older than entry i of p are recs; of all entries, where i is how many there are.
pub fn recs_before(store: &[u32], p: usize, i: usize) -> usize
    requires { IsImage store.now × OfState store.now (λ s. i ≤ length (history_at s p)) }
    ensures { OfState store.now (λ s. result ≡ length (taken (oldest i (history_at s p)))) × (result ≤ i) }
{
    count_of(store, p, i, Kind::Rec)
}

// How many messages have come to p.
fn come_count(store: &[u32], p: usize) -> usize
    requires { IsImage store.now × OfState store.now (IsPlace p) }
    ensures { OfState store.now (ComeCount p result) }
{
    let end = entry_count(store, p);
    recs_before(store, p, end) + queue(store, p).len()
}

// How many events each line has.
pub fn levels(store: &[u32]) -> [usize; LINES]
    requires { IsImage store.now }
    ensures { OfState store.now (λ s. Levels s result) }
{
    let mut levels = [0usize; LINES];
    for p in 0..places(store) {
        levels[entries_line(p)] = entry_count(store, p);
        levels[deliveries_line(p)] = come_count(store, p);
    }
    levels
}

// Where a name stands among names, from a place on.
fn place_from(names: &[u32], from: usize, name: u32) -> Option<usize>
    ensures { PlaceFrom names.now from name result }
{
    (from..names.len()).find(|i| names[*i] == name)
}

// How long the queue is that the newest rec left, entry i of q and the older ones: as before, or one less than the queue before.
fn left_at(store: &[u32], q: usize, i: usize, left: usize) -> usize
    requires { IsImage store.now × OfState store.now (IsEntry q i) }
    ensures { OfState store.now (LeftAt q i left result) }
{
    match kind(store, q, i) {
        Kind::Rec => queue_before(store, q, i).len() - 1,
        _ => left,
    }
}

// Which arrival at q the message of that name is: its place in the first queue that shows it, and the recs before.
pub fn arrival(store: &[u32], q: usize, name: u32) -> Option<usize>
    requires { IsImage store.now × OfState store.now (IsPlace q) }
    ensures { OfState store.now (ArrivalIs q name result) }
{
    let end = entry_count(store, q);
    let mut left = 0;
    for i in 0..end {
        if let Some(j) = place_from(queue_before(store, q, i), left, name) {
            return Some(recs_before(store, q, i) + j);
        }
        left = left_at(store, q, i, left);
    }
    let j = place_from(queue(store, q), left, name)?;
    Some(recs_before(store, q, end) + j)
}
