// Standard input, read to its end.
ghost use Rattle.std.specs.Prelude.{◌≡◌, ◌≤◌, ℕ, List, length, IfOk, OnErr};
ghost use Rattle.blocks.specs.Left.{kept_of, TakesBlock, StopsAtLine};
ghost use Rattle.blocks.specs.Rooms.{block_room};

use blocks::blocks::{BLOCK_ROOM, Turn, answer_block, perform_block};
use console::interrupt::interrupted;
use std::io::{Read, Result, Write};
use std::ops::ControlFlow;

// What the lines of the input are. No trait with a type for each: the clauses `err_commands` and `err_script` of `hear` differ by the case.
#[derive(Clone, Copy)]
pub enum Lines {
    Commands,
    Script,
}

// A block of the input.
fn hear<W: Write>(
    to: &mut W,
    lines: Lines,
    store: &mut [u32],
    line: &mut [u8],
    count: usize,
    block: &[u8],
) -> Result<Turn>
    requires count_in_bounds { count ≤ length line.old }
    requires block_len_bound { length block.now ≤ block_room }
    ensures ok { IfOk result (λ turn. kept_of turn ≤ length line.old) }
    ensures err_commands { OnErr result (lines ≡ Lines.Commands → ((kept : ℕ) × (said : List ℕ)
        × TakesBlock store.old line.old count block.now store.new line.new kept said)) }
    ensures err_script { OnErr result (lines ≡ Lines.Script → StopsAtLine line.old count block.now line.new) }
    ensures err_line { OnErr result (length line.new ≡ length line.old) }
    ensures err_store { OnErr result (length store.new ≡ length store.old) }
{
    match lines {
        Lines::Commands => answer_block(to, store, line, count, block),
        Lines::Script => {
            let kept = perform_block(to, store, line, count, block)?;
            Ok(ControlFlow::Continue(kept))
        }
    }
}

// Reads once, and performs the lines that end in what came.
fn read_some<R: Read, W: Write>(
    from: &mut R,
    to: &mut W,
    lines: Lines,
    store: &mut [u32],
    line: &mut [u8],
    count: usize,
) -> Result<Turn>
    requires { count ≤ length line.old }
    ensures ok { IfOk result (λ turn. kept_of turn ≤ length line.old) }
    ensures err_line { OnErr result (length line.new ≡ length line.old) }
    ensures err_store { OnErr result (length store.new ≡ length store.old) }
{
    let mut block = [0u8; BLOCK_ROOM];
    match from.read(&mut block) {
        Ok(0) => Ok(ControlFlow::Break(count)),
        Ok(n) => hear(to, lines, store, line, count, &block[..n]),
        Err(e) if interrupted(&e) => Ok(ControlFlow::Continue(count)),
        Err(e) => Err(e),
    }
}

// Reads to the end of the input; nothing says that it ends, so turns are counted up to a number that no run uses up. The answer is how
// many bytes stand in a last line with no LF. After an error the store holds what the lines taken so far made of it.
pub fn read_all<R: Read, W: Write>(
    from: &mut R,
    to: &mut W,
    lines: Lines,
    store: &mut [u32],
    line: &mut [u8],
) -> Result<usize>
    ensures ok { IfOk result (λ count. count ≤ length line.old) }
    ensures err_line { OnErr result (length line.new ≡ length line.old) }
    ensures err_store { OnErr result (length store.new ≡ length store.old) }
{
    let mut count = 0;
    for _ in 0..u64::MAX {
        match read_some(from, to, lines, store, line, count)? {
            ControlFlow::Continue(kept) => count = kept,
            ControlFlow::Break(kept) => return Ok(kept),
        }
    }
    Ok(count)
}
