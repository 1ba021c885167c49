// One line of a script.
use crate::printing::{list, print_listing, print_reply};
use calls::answers::Answer;
use console::printing::print_number;
use console::words::{WORD_BYTES, alter_line};
use loads::loads::{LOADED, load_line};
use parsing::parsing::{after, read_number};
use std::io::{Result, Write};
use text::keys::ANSWER;

// The keys of lines that are no commands of the bench.
const LOAD: [u8; 5] = *b"load=";

const LIST: [u8; 4] = *b"list";

const SHORT: [u8; 6] = *b"short=";

const CLEAR: [u8; 5] = *b"clear";

const ALTER: [u8; 6] = *b"alter=";

// The longest line is one that loads.
pub const LONGEST_LINE: usize = LOAD.len() + LOADED * WORD_BYTES;

// The longest output that a line can ask for.
const SHORTENED: usize = 256;

// Prints a refusal of the listing.
fn refused<W: Write>(to: &mut W, a: Answer) -> Result<()> {
    if let Err(refusal) = a {
        print_number(to, &ANSWER, u32::from(refusal))?;
    }
    Ok(())
}

fn short_line<W: Write>(to: &mut W, store: &[u32], text: &[u8]) -> Result<()> {
    let mut out = [0u8; SHORTENED];
    let Some(n) = read_number(text) else {
        return Ok(());
    };
    let end = n as usize;
    if end <= SHORTENED {
        let a = print_listing(to, store, &mut out[..end])?;
        refused(to, a)?;
    }
    Ok(())
}

// A line, and what it prints. An error is one of printing: the store is then as the line made it.
pub fn perform<W: Write>(to: &mut W, store: &mut [u32], text: &[u8]) -> Result<()> {
    if let Some(words) = after(text, &LOAD) {
        return load_line(to, store, words);
    }
    if text.starts_with(&LIST) {
        let a = list(to, store)?;
        return refused(to, a);
    }
    if let Some(digits) = after(text, &SHORT) {
        return short_line(to, store, digits);
    }
    if text.starts_with(&CLEAR) {
        store.fill(0);
        return Ok(());
    }
    if let Some(words) = after(text, &ALTER) {
        alter_line(store, words);
        return Ok(());
    }
    print_reply(to, store, text)
}
