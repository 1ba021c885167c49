// Replies and listings printed. An error is one of printing: the store is then as the line made it.
use calls::answers::Answer;
use console::printing::print;
use lines::lines::reply;
use listing::listing::listing;
use std::io::{Result, Write};
use text::replies::REPLY_ROOM;

// Room for every listing of the programs' states.
const LISTING_ROOM: usize = 65536;

// Prints the reply to a command line.
pub fn print_reply<W: Write>(to: &mut W, store: &mut [u32], text: &[u8]) -> Result<()> {
    let mut out = [0u8; REPLY_ROOM];
    let end = reply(store, text, &mut out, 0);
    print(to, &out, end)
}

// Prints the listing, by way of an output; nothing where it is refused.
pub fn print_listing<W: Write>(to: &mut W, store: &[u32], out: &mut [u8]) -> Result<Answer> {
    let a = listing(store, out);
    if let Ok(length) = a {
        print(to, out, length as usize)?;
    }
    Ok(a)
}

// The same with an output that is large enough for the programs' states.
pub fn list<W: Write>(to: &mut W, store: &[u32]) -> Result<Answer> {
    let mut out = [0u8; LISTING_ROOM];
    print_listing(to, store, &mut out)
}
