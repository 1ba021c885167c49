// One entry more, where the next control fits and the history has room.
ghost use Rattle.std.specs.Prelude.{◌≡◌, ◌≤◌, ltb, length};
ghost use Rattle.rules.specs.State.{history_at};
ghost use Rattle.store.specs.Image.{IsImage};
ghost use Rattle.reading.specs.Reads.{OfState, Lives};
ghost use Rattle.writing.specs.Writes.{CanTake};
ghost use Rattle.entering.specs.Entering.{CanSpawn};
ghost use Rattle.making.specs.Making.{Within, Sized, MakesEntry, MakesRec, MakesSpawn};

use calls::answers::{Answer, Refusal};
use entering::entering::{bear, enter, receive};
use reading::state::{entry_count, most_entries};
use step::step::Next;

// Whether p may have one entry more.
fn has_room(store: &[u32], p: usize) -> bool
    requires { IsImage store.now × OfState store.now (Lives p) }
    ensures { OfState store.now (λ s. result ≡ ltb (length (history_at s p)) s.sizes.entries) }
{
    entry_count(store, p) < most_entries(store)
}

// p makes an entry that is neither a rec nor a spawn; the next control stands in `row`.
pub fn make(store: &mut [u32], p: usize, kind: u32, number: u32, next: Next, row: &[u32]) -> Answer
    requires { IsImage store.old × OfState store.old (Lives p) × OfState store.old (Sized row.now) × Within next (length row.now) }
    ensures { MakesEntry p kind number next row.now store.old store.new result }
{
    // Too large: Nothing is told of a receive alone.
    let Ok(n) = next else {
        return Err(Refusal::TooLarge);
    };
    if !has_room(store, p) {
        return Err(Refusal::HistoryFull);
    }
    enter(store, p, kind, number, &row[..n]);
    Ok(0)
}

// p receives the message at a place of its queue; the next control is the first n words of `row`.
pub fn make_rec(store: &mut [u32], p: usize, place: usize, n: usize, row: &[u32]) -> Answer
    requires { IsImage store.old × OfState store.old (Lives p) × OfState store.old (Sized row.now) × (n ≤ length row.now) × OfState store.old (CanTake p place) }
    ensures { MakesRec p place n row.now store.old store.new result }
{
    if has_room(store, p) {
        receive(store, p, place, &row[..n]);
        return Ok(0);
    }
    Err(Refusal::HistoryFull)
}

// p spawns a process into the free place f, with its first control.
pub fn make_spawn(
    store: &mut [u32],
    p: usize,
    f: usize,
    next: Next,
    row: &[u32],
    first: &[u32],
) -> Answer
    requires { IsImage store.old × OfState store.old (Lives p) × OfState store.old (Sized row.now) × Within next (length row.now) × OfState store.old (CanSpawn f first.now) }
    ensures { MakesSpawn p f next row.now first.now store.old store.new result }
{
    // Too large: Nothing is told of a receive alone.
    let Ok(n) = next else {
        return Err(Refusal::TooLarge);
    };
    if has_room(store, p) {
        bear(store, p, f, &row[..n], first);
        return Ok(0);
    }
    Err(Refusal::HistoryFull)
}
