// Undoing down to a cut, in a store.
ghost use Rattle.std.specs.Prelude.{◌≤◌};
ghost use Rattle.store.specs.Image.{IsImage};
ghost use Rattle.reading.specs.Reads.{OfState};
ghost use Rattle.writing.specs.Writes.{Leads};
ghost use Rattle.rules.specs.Rollback.{undo_to};
ghost use Rattle.cuts.specs.Bounds.{most_events};
ghost use Rattle.cuts.specs.Links.{cut_in, sum_of, Room};
ghost use Rattle.cuts.specs.Chains.{Waiting};
ghost use Rattle.cuts.specs.Going.{Ready};
ghost use Rattle.rollback.specs.Undone.{CanUndoLine, UndoesLine, Reaches, OfWords, Leaves, TakesBack};

use calls::answers::{Answer, Refusal};
use cuts::bounds::{INDEX_ROOM, LINES, NO_LINK};
use cuts::chains::index_links;
use cuts::events::{has_entries, place_of};
use cuts::link::Link;
use cuts::search::{next_line, seek};
use writing::posting::unpost;
use writing::undoing::undo;

// The newest event of a line is undone.
fn undo_line(store: &mut [u32], x: usize)
    requires { IsImage store.old × OfState store.old (CanUndoLine x) }
    ensures { Leads store.old store.new (UndoesLine x) }
{
    if has_entries(x) {
        undo(store, place_of(x));
    } else {
        unpost(store, place_of(x));
    }
}

// Everything above the cut is undone.
fn undo_down(
    store: &mut [u32],
    links: &[Link],
    index: &mut [u16; INDEX_ROOM],
    cut: &[usize; LINES],
    levels: &[usize; LINES],
)
    requires { IsImage store.old × Room links.now × Waiting links.now levels.now index.old × OfState store.old (λ s. Ready s links.now cut.now levels.now) × OfState store.old (λ s. Reaches s (cut_in cut.now)) }
    ensures { OfWords store.old (λ s rest. Leaves s (cut_in cut.now) rest store.new) }
{
    let mut level = *levels;
    while let Some(x) = next_line(links, index, cut, &level) {
        undo_line(store, x);
        level[x] -= 1;
    }
}

// What is above the cut is undone, or nothing is.
pub fn undo_to(
    store: &mut [u32],
    links: &[Link],
    cut: &[usize; LINES],
    levels: &[usize; LINES],
) -> Answer
    requires { IsImage store.old × Room links.now × (sum_of levels.now ≤ most_events) × OfState store.old (λ s. Ready s links.now cut.now levels.now) }
    ensures { OfWords store.old (λ s rest. TakesBack s rest store.new (undo_to s (cut_in cut.now)) result) }
{
    let undone = seek(links, cut, levels).ok_or(Refusal::Held)?;
    let mut index = [NO_LINK; INDEX_ROOM];
    index_links(links, &mut index);
    undo_down(store, links, &mut index, cut, levels);
    Ok(undone)
}
