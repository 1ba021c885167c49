// The cut: how many events of each line stay, where an event goes with all that depend on it.
ghost use Rattle.std.specs.Prelude.{◌≡◌, ◌≤◌, ◌<◌, length, get_or, set};
ghost use Rattle.lists.specs.Decides.{Decides};
ghost use Rattle.cuts.specs.Bounds.{line_count};
ghost use Rattle.cuts.specs.Links.{LinkFits, Room, OnEvents};
ghost use Rattle.cuts.specs.Chains.{Indexed};
ghost use Rattle.cuts.specs.Going.{Tears, FindsAbove, LowersAt, LowersOn, Settled, Settles};

use crate::bounds::{INDEX_ROOM, LINES, NO_LINK, SLOTS};
use crate::chains::{index_links, slot};
use crate::events::Event;
use crate::link::Link;

// Whether a cut tears a link: its event stays, and what it depends on goes.
fn tears(links: &[Link], k: usize, cut: &[usize; LINES]) -> bool
    requires { LinkFits links.now k }
    ensures { Decides (Tears links.now cut.now k) result }
{
    let link = links[k];
    link.event.index < cut[link.event.line] && cut[link.on.line] <= link.on.index
}

// The cut that tears link k is lowered to its event.
fn lower(links: &[Link], k: usize, cut: &mut [usize; LINES])
    requires { LinkFits links.now k }
    ensures { LowersAt links.now k cut.old cut.new }
{
    if tears(links, k, cut) {
        let event = links[k].event;
        cut[event.line] = event.index;
    }
}

// All links on an event, which goes.
fn lower_on(links: &[Link], index: &[u16; INDEX_ROOM], event: Event, cut: &mut [usize; LINES])
    requires { Room links.now × Indexed links.now 0 index.now × (event.line < line_count) × (get_or cut.old event.line 0 ≤ event.index) × (length cut.old ≡ line_count) }
    ensures { LowersOn links.now event.line event.index cut.old cut.new }
{
    let mut k = index[slot(event)] as usize;
    while k < links.len() {
        lower(links, k, cut);
        k = index[SLOTS + k] as usize;
    }
}

// The first line that stands above a cut.
pub fn above(cut: &[usize; LINES], level: &[usize; LINES]) -> Option<usize>
    ensures { FindsAbove cut.now level.now result }
{
    for x in 0..LINES {
        if cut[x] < level[x] {
            return Some(x);
        }
    }
    None
}

// The cut lowered until it tears no link; each event that goes is looked at once.
fn lowered(
    links: &[Link],
    index: &[u16; INDEX_ROOM],
    levels: &[usize; LINES],
    cut: &mut [usize; LINES],
)
    requires { Room links.now × OnEvents links.now levels.now × Indexed links.now 0 index.now × (length levels.now ≡ line_count) × (length cut.old ≡ line_count) }
    ensures { Settled links.now cut.old cut.new }
{
    let mut left = *levels;
    while let Some(y) = above(cut, &left) {
        let i = left[y] - 1;
        left[y] = i;
        lower_on(links, index, Event { line: y, index: i }, cut);
    }
}

// The cut that takes off an event with all that depend on it.
pub fn settled(links: &[Link], levels: &[usize; LINES], event: Event) -> [usize; LINES]
    requires { Room links.now × OnEvents links.now levels.now × (event.line < line_count) × (length levels.now ≡ line_count) }
    ensures { Settles links.now (set levels.now event.line event.index) result }
{
    let mut index = [NO_LINK; INDEX_ROOM];
    index_links(links, &mut index);
    let mut cut = *levels;
    cut[event.line] = event.index;
    lowered(links, &index, levels, &mut cut);
    cut
}
