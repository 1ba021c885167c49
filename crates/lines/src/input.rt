// The program's input, block by block: the lines that end in a block are performed, and what is printed for them goes to an output.
ghost use Rattle.std.specs.Prelude.{◌≤◌, [], ◌∷◌, length, ◌≡◌};
ghost use Rattle.replies.specs.Replied.{Replied};
ghost use Rattle.lines.specs.Input.{Kept, Took, Hears, Ends};

use crate::lines::reply;
use text::keys::{LINE_FEED, ROLLBACK};
use text::writing::past;

// The most digits of a number in a good line, and the bytes of the longest good line: a rollback's key, and two numbers with a comma between.
const DIGITS: usize = 3;

pub const LONGEST_GOOD: usize = ROLLBACK.len() + DIGITS + 1 + DIGITS;

// How many bytes stand of a line that has not ended, and where the output ends. A line and its count are two parameters, and no buffer with a
// length: the clauses `Kept` and `Hears` are of the caller's whole line.
#[derive(Clone, Copy)]
pub struct Heard {
    pub count: usize,
    pub end: usize,
}

// One byte more of a line. Of a line that is longer than any good one only the first bytes are kept: it is malformed whatever follows.
pub fn keep(line: &mut [u8], count: usize, b: u8) -> usize
    ensures { Kept line.old count b line.new result }
{
    if line.len() <= count {
        return line.len();
    }
    line[count] = b;
    count + 1
}

// LF: the line that has begun is answered, and nothing stands of the next.
fn end_line(store: &mut [u32], line: &[u8], out: &mut [u8], at: usize) -> Heard
    ensures empty { result.count ≡ 0 }
    ensures replied { Replied line.now store.old store.new at out.old out.new result.end }
{
    let end = reply(store, line, out, at);
    Heard { count: 0, end }
}

// One byte of the input, after so many of its line.
fn take_byte(
    store: &mut [u32],
    line: &mut [u8],
    count: usize,
    b: u8,
    out: &mut [u8],
    at: usize,
) -> Heard
    requires { count ≤ length line.old }
    ensures within { result.count ≤ length line.old }
    ensures took { Took store.old line.old count (b ∷ []) at out.old store.new line.new result.count out.new result.end }
{
    if b == LINE_FEED {
        return end_line(store, &line[..count], out, at);
    }
    Heard {
        count: keep(line, count, b),
        end: past(at, 0),
    }
}

// The lines of a block.
fn take_lines(
    store: &mut [u32],
    line: &mut [u8],
    count: usize,
    block: &[u8],
    out: &mut [u8],
) -> Heard
    requires { count ≤ length line.old }
    ensures { Took store.old line.old count block.now 0 out.old store.new line.new result.count out.new result.end }
{
    let mut heard = Heard { count, end: 0 };
    for b in block {
        heard = take_byte(store, line, heard.count, *b, out, heard.end);
    }
    heard
}

// A block of the input. The output has room for what is said if it has room for a reply for each byte of the block. Where the line has no room
// for more than every good one, or more is said to be kept of it than it has, nothing is taken.
pub fn take_block(
    store: &mut [u32],
    line: &mut [u8],
    count: usize,
    block: &[u8],
    out: &mut [u8],
) -> Option<Heard>
    ensures { Hears store.old line.old count block.now out.old store.new line.new out.new result }
{
    if line.len() <= LONGEST_GOOD || line.len() < count {
        return None;
    }
    Some(take_lines(store, line, count, block, out))
}

// The end of the input: a last line may have no LF.
pub fn last_line(store: &mut [u32], line: &[u8], out: &mut [u8]) -> usize
    ensures { Ends store.old line.now out.old store.new out.new result }
{
    if line.is_empty() {
        return 0;
    }
    reply(store, line, out, 0)
}
