// Load: a module and sizes become the image of their first state.
ghost use Rattle.std.specs.Prelude.{◌≡◌};
ghost use Rattle.store.specs.Sizing.{sizes_of};
ghost use Rattle.store.specs.Loading.{LoadAnswers};
ghost use Rattle.store.specs.declared.load.LoadError.TheVariants.{BadModule};

use crate::fill::fill;
use crate::layout::{BLOCKS, HEAD, LIVE};
use crate::sizes::Sizes;
use checks::module::check_module;
use rows::terms::BadWord;
use rows::words::{APPLY, word_of};

// Why a load is refused: its sizes are out of range or more than the store has room for, or its module has a bad word.
#[derive(Clone, Copy, Debug, PartialEq, Eq)]
pub enum LoadError {
    BadSizes,
    BadModule(BadWord),
}

impl From<BadWord> for LoadError {
    ghost from_gives = { λ bad error. error ≡ BadModule bad };

    fn from(bad: BadWord) -> LoadError {
        LoadError::BadModule(bad)
    }
}

// Loads a module into a store.
pub fn load(
    module: &[u32],
    places: u32,
    entries: u32,
    words: u32,
    store: &mut [u32],
) -> Result<(), LoadError>
    ensures { LoadAnswers «module».now (sizes_of places entries words) store.old store.new result }
{
    let Some(sizes) = Sizes::new(places, entries, words) else {
        return Err(LoadError::BadSizes);
    };
    let end = sizes.needed();
    if store.len() < end {
        return Err(LoadError::BadSizes);
    }
    check_module(module)?;
    let head = [places, entries, words, module.len() as u32];
    // The slot of the first process: its control has one word, an apply of function 0, and its queue is empty.
    let first = [LIVE, 1, 0, 0, 0, 0, 0, 0, word_of(APPLY, 0, 0)];
    fill(&mut store[0..HEAD], &head);
    fill(&mut store[HEAD..BLOCKS], module);
    fill(&mut store[BLOCKS..end], &first);
    Ok(())
}
