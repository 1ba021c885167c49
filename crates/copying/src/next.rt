// The next control: a control's words with a term's words in place of the term at a position.
ghost use Rattle.std.specs.Prelude.{[], ◌∷◌, suc, ◌<◌, ◌≤◌, length};
ghost use Rattle.term.specs.Words.{integer_word};
ghost use Rattle.row_laws.specs.Bounds.{walk_limit};
ghost use Rattle.copying.specs.Nexts.{WritesAfter, Puts, PutsCopy};

use crate::copy::{copy, copy_words, put};
use rows::terms::{Ahead, skip};
use rows::words::INTEGER_WORD;

// What stands after the term at `at`.
fn after(c: &[u32], at: usize, out: &mut [u32], to: usize) -> usize
    requires { (at ≤ length c.now) × (to ≤ suc (length out.old)) }
    ensures { WritesAfter c.now at to out.old out.new result }
{
    let end = skip(c, at, 1);
    copy_words(c, end, c.len() - end, out, to)
}

// The control with the word `w` in place of the term at `at`.
pub fn with_word(c: &[u32], at: usize, w: u32, out: &mut [u32]) -> usize
    requires { at ≤ length c.now }
    ensures { Puts c.now at (w ∷ []) out.old out.new result }
{
    let a = copy_words(c, 0, at, out, 0);
    let b = put(out, a, w);
    after(c, at, out, b)
}

// The control with an integer in place of the term at `at`.
pub fn with_integer(c: &[u32], at: usize, x: u32, out: &mut [u32]) -> usize
    requires { at ≤ length c.now }
    ensures { Puts c.now at (integer_word ∷ x ∷ []) out.old out.new result }
{
    let a = copy_words(c, 0, at, out, 0);
    let b = put(out, a, INTEGER_WORD);
    let d = put(out, b, x);
    after(c, at, out, d)
}

// The term at `body` of one row is to stand in place of the term at `at` of another.
#[derive(Clone, Copy)]
pub struct Swap {
    pub at: usize,
    pub body: usize,
}

// The control with a term of `src`, values in place of its variables, in place of one of its own.
pub fn with_copy(
    c: &[u32],
    src: &[u32],
    swap: Swap,
    values: &[u32],
    env: &[u32],
    out: &mut [u32],
) -> usize
    requires { (swap.at ≤ length c.now) × (swap.body ≤ length src.now) × (length src.now < walk_limit) × (length values.now < walk_limit) }
    ensures { PutsCopy c.now swap.at src.now swap.body values.now env.now out.old out.new result }
{
    let a = copy_words(c, 0, swap.at, out, 0);
    let body = Ahead {
        at: swap.body,
        owed: 1,
    };
    let b = copy(src, body, values, env, out, a);
    after(c, swap.at, out, b)
}
