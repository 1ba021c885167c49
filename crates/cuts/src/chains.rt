// An index of links by the event that they are on: a chain of links from each slot, so that those on one event are found without going
// through all. A number past all links ends a chain. Chains go by numbers in one array, since the memory is fixed.
ghost use Rattle.std.specs.Prelude.{◌≡◌, ◌+◌, ◌<◌, length};
ghost use Rattle.cuts.specs.Bounds.{line_count};
ghost use Rattle.cuts.specs.Links.{Room};
ghost use Rattle.cuts.specs.Chains.{slot_of, slot_count, no_chains, Indexed};

use crate::bounds::{INDEX_ROOM, SLOTS, SLOTS_EACH};
use crate::events::Event;
use crate::link::Link;

// The slot of an event, which it shares with other events only where they are many.
pub fn slot(event: Event) -> usize
    requires { event.line < line_count }
    ensures { (result ≡ slot_of event.line event.index) × (result < slot_count) }
{
    SLOTS_EACH * event.line + event.index % SLOTS_EACH
}

// Link k goes before the chain of its slot.
fn enter(links: &[Link], k: usize, index: &mut [u16; INDEX_ROOM])
    requires { Room links.now × (k < length links.now) × Indexed links.now (k + 1) index.old }
    ensures { Indexed links.now k index.new }
{
    let s = slot(links[k].on);
    index[SLOTS + k] = index[s];
    index[s] = k as u16;
}

// All links, where no chain is yet.
pub fn index_links(links: &[Link], index: &mut [u16; INDEX_ROOM])
    requires { Room links.now × (index.old ≡ no_chains) }
    ensures { Indexed links.now 0 index.new }
{
    for k in (0..links.len()).rev() {
        enter(links, k, index);
    }
}
