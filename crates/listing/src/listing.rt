// The listing.
ghost use Rattle.rules.specs.Listing.{listing as listing_of};
ghost use Rattle.store.specs.Image.{IsImage};
ghost use Rattle.text.specs.Written.{Wrote};
ghost use Rattle.calls.specs.Numbers.{Lists};
ghost use Rattle.reading.specs.Reads.{OfState};

use crate::flying::write_flight;
use crate::processes::{pool_count, write_places};
use calls::answers::{Answer, Refusal};
use soundness::sound::sound;
use text::keys::PROCESSES;
use text::replies::write_number_line;

// The listing written from the start of the output, as far as it reaches; the answer is the listing's length.
fn write_listing(store: &[u32], out: &mut [u8]) -> usize
    requires { IsImage store.now }
    ensures { OfState store.now (λ s. Wrote (listing_of s) 0 out.old out.new result) }
{
    let count = pool_count(store);
    let to = write_number_line(out, 0, &PROCESSES, count);
    let next = write_places(store, out, to);
    write_flight(store, out, next)
}

// 15 where the store is no image, 16 where the output is shorter than the listing, and neither writes anything; else the listing, and its
// length. It is measured first on an empty part of the output.
pub fn listing(store: &[u32], out: &mut [u8]) -> Answer
    ensures { Lists store.now out.old out.new result }
{
    if !sound(store) {
        return Err(Refusal::NotAState);
    }
    let length = write_listing(store, &mut out[..0]);
    if out.len() < length {
        return Err(Refusal::NoRoom);
    }
    write_listing(store, out);
    Ok(length as u32)
}
