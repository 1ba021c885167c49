// A line of words that loads: the places, entries and words, then the module's words.
use calls::load_answers::load_number;
use checks::module::LONGEST;
use console::printing::print_number;
use console::words::read_words;
use std::io::{Result, Write};
use store::load::{LoadError, load};
use text::keys::ANSWER;

// What begins the line of a bad module's position.
const POSITION: [u8; 9] = *b"position=";

// The most words of a line that loads.
pub const LOADED: usize = 600;

// Loads, from the words of a line. An error is one of printing, and comes after the load.
fn load_words<W: Write>(to: &mut W, store: &mut [u32], words: &[u32]) -> Result<()> {
    let [places, entries, control, module @ ..] = words else {
        return Ok(());
    };
    let loaded = load(module, *places, *entries, *control, store);
    print_number(to, &ANSWER, load_number(loaded))?;
    let Err(LoadError::BadModule(bad)) = loaded else {
        return Ok(());
    };
    if bad.0 <= LONGEST {
        print_number(to, &POSITION, bad.0 as u32)?;
    }
    Ok(())
}

pub fn load_line<W: Write>(to: &mut W, store: &mut [u32], text: &[u8]) -> Result<()> {
    let mut words = [0u32; LOADED];
    let n = read_words(text, &mut words);
    load_words(to, store, &words[..n])
}
