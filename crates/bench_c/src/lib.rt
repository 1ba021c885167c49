// The calls for programs in other languages, exported under their names: each is the one of `bench`.
#![tactic(auto)]

ghost use Rattle.rules.specs.Commands.{step as step_of, spawn_into, deliver as deliver_of, back as back_of, undeliver as undeliver_of};
ghost use Rattle.rules.specs.Line.{single, rollback_to};
ghost use Rattle.store.specs.Sizing.{sizes_of};
ghost use Rattle.calls.specs.Calls.{RequestCall, LineCall, ListingCall, LoadCall};
ghost use Rattle.bench.specs.Exports.{returned};

use bench::exports;

// Loads a module into a store. Number 0; 2; or 1 with the position of the bad word. A refused load leaves the store as it was.
#[unsafe(no_mangle)]
pub extern "C" fn bench_load(
    module: &[u32],
    places: u32,
    entries: u32,
    words: u32,
    store: &mut [u32],
) -> u64
    ensures { LoadCall «module».now (sizes_of places entries words) store.old (returned result store.new) }
{
    exports::bench_load(module, places, entries, words, store)
}

// One step of p that isn't a spawn.
#[unsafe(no_mangle)]
pub extern "C" fn bench_step(store: &mut [u32], p: u32) -> u64
    ensures { RequestCall (single (step_of p)) store.old (returned result store.new) }
{
    exports::bench_step(store, p)
}

// A spawn of p into place f.
#[unsafe(no_mangle)]
pub extern "C" fn bench_spawn(store: &mut [u32], p: u32, f: u32) -> u64
    ensures { RequestCall (single (spawn_into p f)) store.old (returned result store.new) }
{
    exports::bench_spawn(store, p, f)
}

// Message s.k comes to the end of its target's queue.
#[unsafe(no_mangle)]
pub extern "C" fn bench_deliver(store: &mut [u32], s: u32, k: u32) -> u64
    ensures { RequestCall (single (deliver_of s k)) store.old (returned result store.new) }
{
    exports::bench_deliver(store, s, k)
}

// p's newest entry is undone.
#[unsafe(no_mangle)]
pub extern "C" fn bench_back(store: &mut [u32], p: u32) -> u64
    ensures { RequestCall (single (back_of p)) store.old (returned result store.new) }
{
    exports::bench_back(store, p)
}

// The newest message of p's queue goes back into flight.
#[unsafe(no_mangle)]
pub extern "C" fn bench_undeliver(store: &mut [u32], p: u32) -> u64
    ensures { RequestCall (single (undeliver_of p)) store.old (returned result store.new) }
{
    exports::bench_undeliver(store, p)
}

// The listing, written into an output; the value is its length. Bytes past it keep their values.
#[unsafe(no_mangle)]
pub extern "C" fn bench_listing(store: &[u32], out: &mut [u8]) -> u64
    ensures { ListingCall store.now out.old (returned result out.new) }
{
    exports::bench_listing(store, out)
}

// p's newest passing of checkpoint t is undone with all that depends on it; the value is how many events that were.
#[unsafe(no_mangle)]
pub extern "C" fn bench_rollback(store: &mut [u32], p: u32, t: u32) -> u64
    ensures { RequestCall (rollback_to p t) store.old (returned result store.new) }
{
    exports::bench_rollback(store, p, t)
}

// One command line without its LF: 17 for a malformed one, else as the call that it asks for.
#[unsafe(no_mangle)]
pub extern "C" fn bench_line(store: &mut [u32], text: &[u8]) -> u64
    ensures { LineCall text.now store.old (returned result store.new) }
{
    exports::bench_line(store, text)
}
