// Whole lines: a key with a number, answers and counts of what was undone.
ghost use Rattle.std.proofs.Math.Option.{some};
ghost use Rattle.std.specs.Prelude.{[], ◌∷◌, ◌++◌};
ghost use Rattle.rules.specs.Text.{line_feed, decimal};
ghost use Rattle.rules.specs.Replies.{answer_line, undone_line};
ghost use Rattle.text.specs.Written.{Wrote};

use crate::keys::{ANSWER, UNDONE};
use crate::writing::{write_bytes, write_decimal, write_line_feed};

// Room for every reply: the longest, an accepted rollback's with a count of ten digits, has 27 bytes.
pub const REPLY_ROOM: usize = 32;

// A line of a key and a number.
pub fn write_number_line(out: &mut [u8], at: usize, key: &[u8], n: u32) -> usize
    ensures { Wrote (key.now ++ decimal n ++ (line_feed ∷ [])) at out.old out.new result }
{
    let to = write_bytes(out, at, key);
    let end = write_decimal(out, to, n);
    write_line_feed(out, end)
}

// A command's answer.
pub fn write_answer(out: &mut [u8], at: usize, number: u32) -> usize
    ensures { Wrote (answer_line number) at out.old out.new result }
{
    write_number_line(out, at, &ANSWER, number)
}

// What an accepted rollback adds.
pub fn write_undone(out: &mut [u8], at: usize, count: u32) -> usize
    ensures { Wrote (undone_line (some count)) at out.old out.new result }
{
    write_number_line(out, at, &UNDONE, count)
}
