// The links of all entries, collected in one walk: those of 01's list, or those that undoing asks for besides.
ghost use Rattle.std.specs.Prelude.{ℕ, ◌+◌, ◌≤◌, ◌<◌, length};
ghost use Rattle.rules.specs.State.{State, history_at};
ghost use Rattle.rules.specs.Depends.{Series};
ghost use Rattle.store.specs.Image.{IsImage};
ghost use Rattle.reading.specs.Reads.{OfState, IsPlace, IsEntry};
ghost use Rattle.cuts.specs.Bounds.{links_each, links_of_place, links_of_sort, most_links};
ghost use Rattle.links.specs.Listed.{ByEntry, TiesAt, AimsAt, AtPlace, AtAll, Adds};
ghost use Rattle.links.specs.Inside.{ties_inside, aims_inside};

use crate::aims::aim_entry;
use crate::links::link_entry;
use cuts::link::LinkVec;
use reading::state::{entry_count, places};

// A sort of links, by the entry that they are about.
pub trait Sort {
    ghost of_entry: { ByEntry };

    // Those of entry i of p.
    fn collect_entry(store: &[u32], p: usize, i: usize, links: &mut LinkVec)
        requires { IsImage store.now × OfState store.now (IsEntry p i) × (length links.old.items + links_each ≤ most_links) }
        ensures { Adds store.now (of_entry p i) links.old.items links.new.items links_each };

    ghost inside: { (p : ℕ) (s : State) (x : Series) (a : ℕ) (y : Series) (b j : ℕ) → of_entry p j s x a y b → j < length (history_at s p) };
}

// 01's list.
#[derive(Clone, Copy)]
pub struct Ties;

impl Sort for Ties {
    ghost of_entry = { TiesAt };

    fn collect_entry(store: &[u32], p: usize, i: usize, links: &mut LinkVec) {
        link_entry(store, p, i, links)
    }

    ghost inside = { ties_inside };
}

// What undoing asks for besides.
#[derive(Clone, Copy)]
pub struct Aims;

impl Sort for Aims {
    ghost of_entry = { AimsAt };

    fn collect_entry(store: &[u32], p: usize, i: usize, links: &mut LinkVec) {
        aim_entry(store, p, i, links)
    }

    ghost inside = { aims_inside };
}

// Those of the entries of p.
fn collect_place<S: Sort>(store: &[u32], p: usize, links: &mut LinkVec)
    requires { IsImage store.now × OfState store.now (IsPlace p) × (length links.old.items + links_of_place ≤ most_links) }
    ensures { Adds store.now (AtPlace S.of_entry p) links.old.items links.new.items links_of_place }
{
    for i in 0..entry_count(store, p) {
        S::collect_entry(store, p, i, links);
    }
}

// Those of all entries, behind the links that there are.
pub fn collect<S: Sort>(store: &[u32], links: &mut LinkVec)
    requires { IsImage store.now × (length links.old.items + links_of_sort ≤ most_links) }
    ensures { Adds store.now (AtAll S.of_entry) links.old.items links.new.items links_of_sort }
{
    for p in 0..places(store) {
        collect_place::<S>(store, p, links);
    }
}
