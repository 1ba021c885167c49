// The table of the 18 tags: least and greatest n, how many k there are, and what stands below.
ghost use Rattle.std.specs.Prelude.{◌≡◌};
ghost use Rattle.term.specs.Table.{row_of};
ghost use Rattle.rows.specs.Kinds.{children_of, ChildCount};

use crate::words::{CHECK_NUMBERS, FUNCTION, K_RANGE, VARIABLES, n, tag};

// How many rows the table has: row 0 is no tag's, the last is that of functions.
const ROWS: usize = FUNCTION as usize + 1;

// Columns, of bytes where numbers are small: a constant array is built anew wherever it is read, and bytes are built at once. A row for each tag, from a
// `match`, was tried: the numbers of one are then told some five times slower.
const LEAST: [u8; ROWS] = [
    0, // no tag
    0, // variable
    0, // atom
    0, // integer
    0, // pid
    0, // nil
    2, // cons
    0, // tuple
    2, // call
    0, // apply
    1, // case
    2, // let
    1, // receive
    0, // spawn
    2, // send
    0, // self
    0, // check
    3, // clause
    0, // function
];

const GREATEST: [u8; ROWS] = [
    0, // no tag
    0, // variable
    0, // atom
    0, // integer
    0, // pid
    0, // nil
    2, // cons
    8, // tuple
    2, // call
    8, // apply
    8, // case
    2, // let
    8, // receive
    8, // spawn
    2, // send
    0, // self
    0, // check
    3, // clause
    8, // function
];

// An apply's and a spawn's k may be any: only the rules know how many functions there are.
const LIMIT: [u32; ROWS] = [
    0, // no tag
    VARIABLES as u32, // variable
    256, // atom
    1, // integer
    0, // pid: as many as there are places
    1, // nil
    1, // cons
    1, // tuple
    9, // call
    K_RANGE, // apply
    1, // case
    VARIABLES as u32, // let
    1, // receive
    K_RANGE, // spawn
    1, // send
    1, // self
    CHECK_NUMBERS as u32, // check
    1, // clause
    1, // function
];

// What stands below a word: n children of its own kind; one expression; pattern, guard and body; a subject and n clauses; n clauses.
#[derive(Clone, Copy, Debug, PartialEq, Eq)]
pub enum ChildKind {
    Alike,
    Body,
    OfClause,
    OfCase,
    OfReceive,
}

const CHILDREN: [ChildKind; ROWS] = [
    ChildKind::Alike, // no tag
    ChildKind::Alike, // variable
    ChildKind::Alike, // atom
    ChildKind::Alike, // integer
    ChildKind::Alike, // pid
    ChildKind::Alike, // nil
    ChildKind::Alike, // cons
    ChildKind::Alike, // tuple
    ChildKind::Alike, // call
    ChildKind::Alike, // apply
    ChildKind::OfCase, // case
    ChildKind::Alike, // let
    ChildKind::OfReceive, // receive
    ChildKind::Alike, // spawn
    ChildKind::Alike, // send
    ChildKind::Alike, // self
    ChildKind::Alike, // check
    ChildKind::OfClause, // clause
    ChildKind::Body, // function
];

// One function for each column: a shared one would have to be lent the column, which is then built anew, and each would keep its contract and so its name.
pub fn least(tag: u32) -> u32
    ensures { result ≡ (row_of tag).least }
{
    if FUNCTION < tag {
        return 0;
    }
    LEAST[tag as usize] as u32
}

pub fn greatest(tag: u32) -> u32
    ensures { result ≡ (row_of tag).greatest }
{
    if FUNCTION < tag {
        return 0;
    }
    GREATEST[tag as usize] as u32
}

pub fn limit(tag: u32) -> u32
    ensures { result ≡ (row_of tag).limit }
{
    if FUNCTION < tag {
        return 0;
    }
    LIMIT[tag as usize]
}

pub fn below(tag: u32) -> ChildKind
    ensures { children_of result ≡ (row_of tag).children }
{
    if FUNCTION < tag {
        return ChildKind::Alike;
    }
    CHILDREN[tag as usize]
}

// How many children a word has.
pub fn children(w: u32) -> usize
    ensures { ChildCount w result }
{
    let count = n(w) as usize;
    match below(tag(w)) {
        ChildKind::Body => 1,
        ChildKind::OfCase => count + 1,
        _ => count,
    }
}
