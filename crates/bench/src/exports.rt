// The calls on plain numbers and slices, which `bench_c` exports for programs in other languages. Each returns value × 2^32 + number: 01's number, and the
// position, count or length that goes with it.
ghost use Rattle.std.specs.Prelude.{◌≡◌};
ghost use Rattle.rules.specs.Commands.{step as step_of, spawn_into, deliver as deliver_of, back as back_of, undeliver as undeliver_of};
ghost use Rattle.rules.specs.Line.{single, rollback_to};
ghost use Rattle.store.specs.Sizing.{sizes_of};
ghost use Rattle.calls.specs.Calls.{RequestCall, LineCall, ListingCall, LoadCall};
ghost use Rattle.calls.specs.Numbers.{packed};
ghost use Rattle.bench.specs.Exports.{returned};

use backward::backward::{back, undeliver};
use calls::answers::{Answer, number, value};
use calls::load_answers::{load_number, load_position};
use delivery::delivery::deliver;
use forward::commands::{spawn, step};
use lines::lines::line;
use listing::listing::listing;
use rollback::rollback::rollback;
use store::load::load;

// Where the value stands: 2^32.
const VALUE_PLACE: u64 = 4294967296;

// An answer as a number.
fn pack(a: Answer) -> u64
    ensures { result ≡ packed a }
{
    value(a) as u64 * VALUE_PLACE + number(a) as u64
}

// Loads a module into a store. Number 0; 2; or 1 with the position of the bad word. A refused load leaves the store as it was.
pub fn bench_load(module: &[u32], places: u32, entries: u32, words: u32, store: &mut [u32]) -> u64
    ensures { LoadCall «module».now (sizes_of places entries words) store.old (returned result store.new) }
{
    let loaded = load(module, places, entries, words, store);
    let at = load_position(loaded);
    let number = load_number(loaded);
    at as u64 * VALUE_PLACE + number as u64
}

// One step of p that isn't a spawn.
pub fn bench_step(store: &mut [u32], p: u32) -> u64
    ensures { RequestCall (single (step_of p)) store.old (returned result store.new) }
{
    pack(step(store, p))
}

// A spawn of p into place f.
pub fn bench_spawn(store: &mut [u32], p: u32, f: u32) -> u64
    ensures { RequestCall (single (spawn_into p f)) store.old (returned result store.new) }
{
    pack(spawn(store, p, f))
}

// Message s.k comes to the end of its target's queue.
pub fn bench_deliver(store: &mut [u32], s: u32, k: u32) -> u64
    ensures { RequestCall (single (deliver_of s k)) store.old (returned result store.new) }
{
    pack(deliver(store, s, k))
}

// p's newest entry is undone.
pub fn bench_back(store: &mut [u32], p: u32) -> u64
    ensures { RequestCall (single (back_of p)) store.old (returned result store.new) }
{
    pack(back(store, p))
}

// The newest message of p's queue goes back into flight.
pub fn bench_undeliver(store: &mut [u32], p: u32) -> u64
    ensures { RequestCall (single (undeliver_of p)) store.old (returned result store.new) }
{
    pack(undeliver(store, p))
}

// The listing, written into an output; the value is its length. Bytes past it keep their values.
pub fn bench_listing(store: &[u32], out: &mut [u8]) -> u64
    ensures { ListingCall store.now out.old (returned result out.new) }
{
    pack(listing(store, out))
}

// p's newest passing of checkpoint t is undone with all that depends on it; the value is how many events that were.
pub fn bench_rollback(store: &mut [u32], p: u32, t: u32) -> u64
    ensures { RequestCall (rollback_to p t) store.old (returned result store.new) }
{
    pack(rollback(store, p, t))
}

// One command line without its LF: 17 for a malformed one, else as the call that it asks for.
pub fn bench_line(store: &mut [u32], text: &[u8]) -> u64
    ensures { LineCall text.now store.old (returned result store.new) }
{
    pack(line(store, text))
}
