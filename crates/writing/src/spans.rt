// Where slots stand in a store.
ghost use Rattle.std.specs.Prelude.{◌≤◌};
ghost use Rattle.store.specs.Image.{IsImage};
ghost use Rattle.reading.specs.Reads.{OfState, IsPlace};
ghost use Rattle.writing.specs.Slots.{Spanned};

use store::sizes::Sizes;

// The words of a slot, from one place to another, and the room that it has for a control.
#[derive(Clone, Copy)]
pub struct Span {
    pub from: usize,
    pub end: usize,
    pub words: usize,
}

// Slot i of place p.
pub fn locate(store: &[u32], p: usize, i: usize) -> Span
    requires { IsImage store.now × OfState store.now (IsPlace p) × OfState store.now (λ s. i ≤ s.sizes.entries) }
    ensures { Spanned p i store.now result }
{
    let sizes = Sizes::at_head(store);
    let from = sizes.slot_start(p, i);
    Span {
        from,
        end: from + sizes.slot,
        words: sizes.words,
    }
}
