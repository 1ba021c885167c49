// A block of the input, line by line: the commands of the program bench, or a script.
ghost use Rattle.std.specs.Prelude.{◌≡◌, ◌≤◌, ℕ, List, [], ◌∷◌, length, IfOk, OnErr};
ghost use Rattle.std.specs.ControlFlow.{MatchControlFlow};
ghost use Rattle.std.specs.Io.KnownBytes.{Appends};
ghost use Rattle.blocks.specs.Left.{kept_of, TakesBlock, RefusesBlock, Gathers, StopsAtLine};
ghost use Rattle.blocks.specs.Rooms.{block_room};

use console::printing::print;
use lines::input::{keep, last_line, take_block};
use scripts::script::perform;
use std::io::{Result, Write};
use std::ops::ControlFlow;
use text::keys::LINE_FEED;
use text::replies::REPLY_ROOM;

// How many bytes a block of the input has, and how many can be said for one: a reply for each of its bytes.
pub const BLOCK_ROOM: usize = 4096;

const SAID: usize = REPLY_ROOM * BLOCK_ROOM;

// How much has been read of a line: there may be more input, or no more is read. It stands beside the line and not in it, as `TakesBlock` has it.
pub type Turn = ControlFlow<usize, usize>;

// A block of commands: what is said for the lines that end in it is printed. Where the line has no room for them none is taken, and no more is
// read. An error is one of printing: the store and the line are then as the block made them.
pub fn answer_block<W: Write>(
    to: &mut W,
    store: &mut [u32],
    line: &mut [u8],
    count: usize,
    block: &[u8],
) -> Result<Turn>
    requires { length block.now ≤ block_room }
    ensures ok { IfOk result (λ turn. kept_of turn ≤ length line.old) }
    ensures ok_answered { IfOk result (λ turn. MatchControlFlow turn
        (λ kept. (said : List ℕ)
        × TakesBlock store.old line.old count block.now store.new line.new kept said
        × Appends (W.contents to.old) (W.contents to.new) said)
        (λ _. RefusesBlock store.old line.old count store.new line.new)) }
    ensures err { OnErr result ((kept : ℕ) × (said : List ℕ)
        × TakesBlock store.old line.old count block.now store.new line.new kept said) }
{
    let mut out = [0u8; SAID];
    let Some(heard) = take_block(store, line, count, block, &mut out) else {
        return Ok(ControlFlow::Break(0));
    };
    print(to, &out, heard.end)?;
    Ok(ControlFlow::Continue(heard.count))
}

// One byte of a script, after so many of its line.
fn take_byte<W: Write>(
    to: &mut W,
    store: &mut [u32],
    line: &mut [u8],
    count: usize,
    b: u8,
) -> Result<usize>
    requires { count ≤ length line.old }
    ensures ok { IfOk result (λ n. n ≤ length line.old) }
    ensures ok_gathers { IfOk result (λ n. Gathers line.old count (b ∷ []) line.new n) }
    ensures err_feed { OnErr result (b ≡ LINE_FEED) }
    ensures err_line { OnErr result (line.new ≡ line.old) }
    ensures err_store { OnErr result (length store.new ≡ length store.old) }
{
    if b == LINE_FEED {
        perform(to, store, &line[..count])?;
        return Ok(0);
    }
    Ok(keep(line, count, b))
}

// A block of a script. After an error, which is one of printing, the lines up to the one whose print failed are performed, and none after it.
pub fn perform_block<W: Write>(
    to: &mut W,
    store: &mut [u32],
    line: &mut [u8],
    count: usize,
    block: &[u8],
) -> Result<usize>
    requires { count ≤ length line.old }
    ensures ok { IfOk result (λ n. n ≤ length line.old) }
    ensures ok_gathers { IfOk result (λ n. Gathers line.old count block.now line.new n) }
    ensures err_line { OnErr result (StopsAtLine line.old count block.now line.new) }
    ensures err_store { OnErr result (length store.new ≡ length store.old) }
{
    let mut n = count;
    for b in block {
        n = take_byte(to, store, line, n, *b)?;
    }
    Ok(n)
}

// Prints the reply to a last line that has no LF. An error is one of printing, and comes after the line is performed.
pub fn answer_last<W: Write>(to: &mut W, store: &mut [u32], line: &[u8]) -> Result<()> {
    let mut out = [0u8; REPLY_ROOM];
    let end = last_line(store, line, &mut out);
    print(to, &out, end)
}
