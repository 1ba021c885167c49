// The processes of a listing.
ghost use Rattle.std.specs.Prelude.{◌≡◌, length};
ghost use Rattle.lists.specs.Lists.{keep, up_to};
ghost use Rattle.rules.specs.State.{history_at, in_pool};
ghost use Rattle.rules.specs.Listing.{newest_name, process_lines};
ghost use Rattle.store.specs.Image.{IsImage};
ghost use Rattle.text.specs.Lines.{newest_text};
ghost use Rattle.text.specs.Written.{Wrote};
ghost use Rattle.reading.specs.Reads.{OfState, IsPlace};
ghost use Rattle.listing.specs.Listed.{places_text};

use kinds::Kind;
use reading::entries::kind;
use reading::state::{control, entry_count, in_pool, places, queue};
use text::listing::{Shown, write_process};
use text::writing::past;

// How many places are in the pool.
pub fn pool_count(store: &[u32]) -> u32
    requires { IsImage store.now }
    ensures { OfState store.now (λ s. result ≡ length (keep (in_pool s) (up_to s.sizes.places))) }
{
    let mut count = 0;
    for p in 0..places(store) as u32 {
        if in_pool(store, p) {
            count += 1;
        }
    }
    count
}

// The kind of the newest entry of place p.
pub fn newest(store: &[u32], p: usize) -> Option<Kind>
    requires { IsImage store.now × OfState store.now (IsPlace p) }
    ensures { OfState store.now (λ s. newest_text result ≡ newest_name (history_at s p)) }
{
    let count = entry_count(store, p);
    if count == 0 {
        return None;
    }
    Some(kind(store, p, count - 1))
}

// The lines of place p: none where no process is.
pub fn write_place(store: &[u32], out: &mut [u8], at: usize, p: usize) -> usize
    requires { IsImage store.now × OfState store.now (IsPlace p) }
    ensures { OfState store.now (λ s. Wrote (process_lines p (s.queues p) (s.processes p)) at out.old out.new result) }
{
    if !in_pool(store, p as u32) {
        return past(at, 0);
    }
    let place = p as u32;
    let entries = entry_count(store, p) as u32;
    let kind = newest(store, p);
    let shown = Shown {
        place,
        entries,
        newest: kind,
    };
    write_process(out, at, shown, queue(store, p), control(store, p))
}

// The lines of all places.
pub fn write_places(store: &[u32], out: &mut [u8], at: usize) -> usize
    requires { IsImage store.now }
    ensures { OfState store.now (λ s. Wrote (places_text s s.sizes.places) at out.old out.new result) }
{
    let mut to = past(at, 0);
    for p in 0..places(store) {
        to = write_place(store, out, to, p);
    }
    to
}
