// The messages in flight of a listing, by sender, then count.
ghost use Rattle.std.specs.Prelude.{◌≡◌, map};
ghost use Rattle.rules.specs.Flight.{is_flying, flight_of};
ghost use Rattle.rules.specs.Listing.{flight_text};
ghost use Rattle.store.specs.Image.{IsImage};
ghost use Rattle.text.specs.Written.{Wrote};
ghost use Rattle.reading.specs.Reads.{OfState, IsPlace};
ghost use Rattle.listing.specs.Listed.{Followed, name_if, flying_texts, flying_line};

use reading::mail::{find_send, has_come, sends_before, target};
use reading::state::{entry_count, places};
use rows::words::NAME_BASE;
use text::keys::FLIGHT;
use text::writing::{past, write_bytes, write_gap, write_line_feed, write_name};

// How far a row of pieces split by single spaces is written: the position after it, and whether any piece stands in it yet.
#[derive(Clone, Copy)]
pub struct Row {
    to: usize,
    begun: bool,
}

// Whether message s.k is in flight.
pub fn in_flight(store: &[u32], s: usize, k: u32) -> bool
    requires { IsImage store.now × OfState store.now (IsPlace s) }
    ensures { OfState store.now (λ state. result ≡ is_flying state s k) }
{
    let Some(i) = find_send(store, s, k) else {
        return false;
    };
    let t = target(store, s, i);
    let name = s as u32 * NAME_BASE + k;
    !has_come(store, t as usize, name)
}

// The name of s.k, where it is in flight.
fn write_flying(store: &[u32], out: &mut [u8], row: Row, s: usize, k: u32) -> Row
    requires { IsImage store.now × OfState store.now (IsPlace s) }
    ensures { OfState store.now (λ state. Followed (name_if (is_flying state s k) s k) row out.old out.new result) }
{
    if !in_flight(store, s, k) {
        return Row {
            to: past(row.to, 0),
            ..row
        };
    }
    let next = write_gap(out, row.to, usize::from(row.begun));
    Row {
        to: write_name(out, next, s as u32, k),
        begun: true,
    }
}

// The names of all messages of s in flight.
fn write_sender(store: &[u32], out: &mut [u8], row: Row, s: usize) -> Row
    requires { IsImage store.now × OfState store.now (IsPlace s) }
    ensures { OfState store.now (λ state. Followed (map flight_text (flight_of state s)) row out.old out.new result) }
{
    let end = sends_before(store, s, entry_count(store, s));
    let mut reached = Row {
        to: past(row.to, 0),
        ..row
    };
    for k in 0..end {
        reached = write_flying(store, out, reached, s, k);
    }
    reached
}

// The names of all messages in flight.
fn write_senders(store: &[u32], out: &mut [u8], row: Row) -> Row
    requires { IsImage store.now }
    ensures { OfState store.now (λ state. Followed (flying_texts state state.sizes.places) row out.old out.new result) }
{
    let mut reached = Row {
        to: past(row.to, 0),
        ..row
    };
    for s in 0..places(store) {
        reached = write_sender(store, out, reached, s);
    }
    reached
}

// The line of the messages in flight.
pub fn write_flight(store: &[u32], out: &mut [u8], at: usize) -> usize
    requires { IsImage store.now }
    ensures { OfState store.now (λ state. Wrote (flying_line state) at out.old out.new result) }
{
    let to = write_bytes(out, at, &FLIGHT);
    let row = write_senders(store, out, Row { to, begun: false });
    write_line_feed(out, row.to)
}
