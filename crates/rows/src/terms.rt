// Terms that stand in a row: where they end.
ghost use Rattle.std.specs.Prelude.{◌≡◌, ◌+◌, drop};
ghost use Rattle.term.specs.Rows.{passed};

use crate::tables::children;
use crate::words::{INTEGER, tag};

// The position of a word that breaks a rule, or at which words run out.
#[derive(Clone, Copy, Debug, PartialEq, Eq)]
pub struct BadWord(pub usize);

// So many terms that are still to come, the first of them at a position.
#[derive(Clone, Copy)]
pub struct Ahead {
    pub at: usize,
    pub owed: usize,
}

// Where words end that are all gone through alike, or from where on so many terms are to come, the first of them another word.
// No `ControlFlow`: a walk goes on after a turn, and ends well at an end, so neither is its break.
#[derive(Clone, Copy)]
pub enum Run {
    Ends(usize),
    Turns(Ahead),
}

// A run, or the word that breaks a rule in it.
pub type Runs = Result<Run, BadWord>;

// Where the terms that stand at a position end, so many of them; the row's end where words run out.
pub fn skip(row: &[u32], at: usize, owed: usize) -> usize
    ensures { result ≡ at + passed (drop at row.now) owed }
{
    let mut x = at;
    let mut left = owed;
    while 0 < left {
        if row.len() <= x {
            return x;
        }
        if row.len() - x <= left {
            return row.len();
        }
        let w = row[x];
        if tag(w) == INTEGER {
            x += 2;
            left -= 1;
            continue;
        }
        x += 1;
        left = left - 1 + children(w);
    }
    x
}
