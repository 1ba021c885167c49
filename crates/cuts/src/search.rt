// Undoing on numbers alone: whether undos that are accepted lead down to a cut.
ghost use Rattle.std.specs.Prelude.{◌≡◌, ◌≤◌, ◌<◌, length, get_or};
ghost use Rattle.lists.specs.Decides.{Decides};
ghost use Rattle.cuts.specs.Bounds.{line_count, most_events};
ghost use Rattle.cuts.specs.Links.{sum_of, from_line, from_index, LinkFits, Room};
ghost use Rattle.cuts.specs.Chains.{slot_count, Waiting};
ghost use Rattle.cuts.specs.Going.{Blocks, Blocked, Free, FindsFree, Seeks};

use crate::bounds::{INDEX_ROOM, LINES, NO_LINK, SLOTS};
use crate::chains::{index_links, slot};
use crate::cut::above;
use crate::events::Event;
use crate::link::Link;

// Whether the event of link k stays.
fn stays(links: &[Link], k: usize, level: &[usize; LINES]) -> bool
    requires { LinkFits links.now k }
    ensures { Decides (from_index links.now k < get_or level.now (from_line links.now k) 0) result }
{
    let event = links[k].event;
    event.index < level[event.line]
}

// Links at the front of a slot's chain are left out for good once their events are gone, so that no walk meets them again.
fn drop_gone(links: &[Link], index: &mut [u16; INDEX_ROOM], s: usize, level: &[usize; LINES])
    requires { Room links.now × Waiting links.now level.now index.old × (s < slot_count) }
    ensures { Waiting links.now level.now index.new }
{
    let mut k = index[s] as usize;
    while k < links.len() && !stays(links, k, level) {
        index[s] = index[SLOTS + k];
        k = index[s] as usize;
    }
}

// Whether link k is of an event that stays, and on that event.
fn blocks(links: &[Link], k: usize, on: Event, level: &[usize; LINES]) -> bool
    requires { LinkFits links.now k }
    ensures { Decides (Blocks links.now on.line on.index level.now k) result }
{
    let link = links[k];
    link.on == on && link.event.index < level[link.event.line]
}

// Whether an event that stays depends on that one.
fn blocked(links: &[Link], index: &[u16; INDEX_ROOM], on: Event, level: &[usize; LINES]) -> bool
    requires { Room links.now × Waiting links.now level.now index.now × (on.line < line_count) }
    ensures { Decides (Blocked links.now on.line on.index level.now) result }
{
    let mut k = index[slot(on)] as usize;
    while k < links.len() {
        if blocks(links, k, on, level) {
            return true;
        }
        k = index[SLOTS + k] as usize;
    }
    false
}

// Whether line x stands above the cut, and its newest event may be undone.
fn free(
    links: &[Link],
    index: &mut [u16; INDEX_ROOM],
    cut: &[usize; LINES],
    level: &[usize; LINES],
    x: usize,
) -> bool
    requires { Room links.now × Waiting links.now level.now index.old × (x < line_count) }
    ensures { Decides (Free links.now cut.now level.now x) result × Waiting links.now level.now index.new }
{
    if level[x] <= cut[x] {
        return false;
    }
    let newest = Event {
        line: x,
        index: level[x] - 1,
    };
    drop_gone(links, index, slot(newest), level);
    !blocked(links, index, newest, level)
}

// The first such line.
pub fn next_line(
    links: &[Link],
    index: &mut [u16; INDEX_ROOM],
    cut: &[usize; LINES],
    level: &[usize; LINES],
) -> Option<usize>
    requires { Room links.now × Waiting links.now level.now index.old }
    ensures { FindsFree links.now cut.now level.now result × Waiting links.now level.now index.new }
{
    for x in 0..LINES {
        if free(links, index, cut, level, x) {
            return Some(x);
        }
    }
    None
}

// Undos from the levels down, as long as one is accepted.
fn descend(
    links: &[Link],
    index: &mut [u16; INDEX_ROOM],
    cut: &[usize; LINES],
    levels: &[usize; LINES],
) -> Option<u32>
    requires { Room links.now × Waiting links.now levels.now index.old × (length levels.now ≡ line_count) × (sum_of levels.now ≤ most_events) }
    ensures { Seeks links.now cut.now levels.now result }
{
    let mut level = *levels;
    let mut n = 0u32;
    while let Some(x) = next_line(links, index, cut, &level) {
        level[x] -= 1;
        n += 1;
    }
    match above(cut, &level) {
        Some(_) => None,
        None => Some(n),
    }
}

// How many undos lead from the levels down to the cut, if any do.
pub fn seek(links: &[Link], cut: &[usize; LINES], levels: &[usize; LINES]) -> Option<u32>
    requires { Room links.now × (length levels.now ≡ line_count) × (sum_of levels.now ≤ most_events) }
    ensures { Seeks links.now cut.now levels.now result }
{
    let mut index = [NO_LINK; INDEX_ROOM];
    index_links(links, &mut index);
    descend(links, &mut index, cut, levels)
}
