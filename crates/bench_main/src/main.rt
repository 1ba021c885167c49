// The program bench: an answer for each command line of its input, then the listing.
#![tactic(auto)]

use blocks::blocks::answer_last;
use input::stream::{Lines, read_all};
use lines::input::LONGEST_GOOD;
use scripts::printing::list;
use std::io::{Result, writer};
use store::load::load;

// The module that it holds, and its sizes.
const MODULE: [u32; 4] = [0x12000000, 0x0B020000, 0x10000007, 0x01000000];

const PLACES: u32 = 4;

const ENTRIES: u32 = 16;

const WORDS: u32 = 64;

// How many words its store has, and how many bytes of a line are kept: more than any good line has.
const STORE: usize = 10816;

const LINE: usize = LONGEST_GOOD + 1;

fn main(rt: HostRuntime) -> Result<()> {
    let mut store = [0u32; STORE];
    // Were it refused, the store would stay zeros, and every command would be told so.
    let _ = load(&MODULE, PLACES, ENTRIES, WORDS, &mut store);
    let mut line = [0u8; LINE];
    let mut to = writer(&rt);
    let count = read_all(
        &mut rt.stdin(),
        &mut to,
        Lines::Commands,
        &mut store,
        &mut line,
    )?;
    answer_last(&mut to, &mut store, &line[..count])?;
    let _ = list(&mut to, &store)?;
    Ok(())
}
