// Shape: reading a row in order, with the spots where its terms stand.
ghost use Rattle.std.specs.Prelude.{◌≡◌, true, ◌&&◌, leb, replicate};
ghost use Rattle.lists.specs.Lists.{member};
ghost use Rattle.term.specs.Words.{n_of};
ghost use Rattle.term.specs.Table.{child_spots, row_of, tags_at, k_limit, fits, own_spot, spot_guard};
ghost use Rattle.shape.specs.Reading.{Common, Reads, ReadsAlike, RunsOf, ValueWord, one_run};

use rows::tables::{ChildKind, below, greatest, least, limit};
use rows::terms::{Ahead, BadWord, Run, Runs};
use rows::words::{
    ATOM, CALL, CHECK, CLAUSE, FUNCTION, INTEGER, NIL, PID, TUPLE, VARIABLE, k, n, tag,
};

// The spots where a term stands: numbers, since `stands` and `read` answer for every number.
pub const FUNCTION_SPOT: usize = 0;

pub const EXPRESSION: usize = 1;

pub const PATTERN: usize = 2;

pub const GUARD: usize = 3;

pub const CLAUSE_SPOT: usize = 4;

pub const VALUE: usize = 5;

// The words of cons and of nil, and those of atoms.
const CONS_WORD: u32 = 0x06020000;

const NIL_WORD: u32 = 0x05000000;

const FIRST_ATOM: u32 = 0x02000000;

const LAST_ATOM: u32 = 0x020000FF;

// Whether a tag lies between two others. `n_fits` and the copying crate's `of_value` write the two tests out: a call would be no plainer.
pub fn between(low: u32, tag: u32, high: u32) -> bool
    ensures { result ≡ (leb low tag && leb tag high) }
{
    low <= tag && tag <= high
}

// Whether a tag may stand at a guard; a control's guard, where there are places, holds values too.
pub fn stands_in_guard(places: u32, tag: u32) -> bool
    ensures { result ≡ member tag (tags_at places spot_guard) }
{
    if tag == CALL {
        return true;
    }
    if places != 0 {
        return between(VARIABLE, tag, TUPLE);
    }
    tag != PID && between(VARIABLE, tag, NIL)
}

// Whether a tag may stand at a spot.
pub fn stands(places: u32, spot: usize, tag: u32) -> bool
    ensures { result ≡ member tag (tags_at places spot) }
{
    match spot {
        EXPRESSION => between(VARIABLE, tag, CHECK),
        VALUE => between(ATOM, tag, TUPLE),
        PATTERN => tag != PID && between(VARIABLE, tag, TUPLE),
        GUARD => stands_in_guard(places, tag),
        CLAUSE_SPOT => tag == CLAUSE,
        FUNCTION_SPOT => tag == FUNCTION,
        _ => false,
    }
}

// How many k a tag has; a pid's are the places.
pub fn k_limit(places: u32, tag: u32) -> u32
    ensures { result ≡ k_limit places tag }
{
    if tag == PID { places } else { limit(tag) }
}

// Whether a word of this tag may have this n.
pub fn n_fits(tag: u32, n: u32) -> bool
    ensures { result ≡ (leb (row_of tag).least n && leb n (row_of tag).greatest) }
{
    least(tag) <= n && n <= greatest(tag)
}

// Whether a word may stand at a spot; there are so many places.
pub fn may_stand(places: u32, spot: usize, w: u32) -> bool
    ensures { result ≡ fits places spot w }
{
    let t = tag(w);
    stands(places, spot, t) && n_fits(t, n(w)) && k(w) < k_limit(places, t)
}

// The spots of a word's children, in three runs of one spot each. They have names and are no array: `read` recurs on each in turn, and
// has no loop beside its recursion.
#[derive(Clone, Copy)]
pub struct Spots {
    pub first: usize,
    pub firsts: usize,
    pub second: usize,
    pub seconds: usize,
    pub third: usize,
    pub thirds: usize,
}

// The spot of children of a word's own kind: in a guard, what is no call holds values.
pub fn own_spot(spot: usize, tag: u32) -> usize
    ensures { result ≡ own_spot spot tag }
{
    if spot == GUARD && tag != CALL {
        VALUE
    } else {
        spot
    }
}

// One run alone.
pub fn one_run(spot: usize, times: usize) -> Spots
    ensures { result ≡ one_run spot times }
{
    Spots {
        first: spot,
        firsts: times,
        second: EXPRESSION,
        seconds: 0,
        third: EXPRESSION,
        thirds: 0,
    }
}

// The spots of the children of a word that stands at a spot.
pub fn runs(spot: usize, w: u32) -> Spots
    ensures { RunsOf spot w result }
{
    let times = n(w) as usize;
    let t = tag(w);
    match below(t) {
        ChildKind::OfClause => Spots {
            first: PATTERN,
            firsts: 1,
            second: GUARD,
            seconds: 1,
            third: EXPRESSION,
            thirds: 1,
        },
        ChildKind::OfCase => Spots {
            first: EXPRESSION,
            firsts: 1,
            second: CLAUSE_SPOT,
            seconds: times,
            third: EXPRESSION,
            thirds: 0,
        },
        ChildKind::OfReceive => one_run(CLAUSE_SPOT, times),
        ChildKind::Body => one_run(EXPRESSION, 1),
        ChildKind::Alike => one_run(own_spot(spot, t), times),
    }
}

// Whether the children of a word, n of them, stand at its own spot.
pub fn alike(spot: usize, w: u32) -> bool
    ensures { result ≡ true → child_spots spot w ≡ replicate (n_of w) spot }
{
    let t = tag(w);
    let ChildKind::Alike = below(t) else {
        return false;
    };
    n(w) == 0 || own_spot(spot, t) == spot
}

// Cons, nil or an atom: the words of which most values are made.
pub fn value_word(w: u32) -> bool
    ensures { result ≡ true → ValueWord w }
{
    matches!(w, CONS_WORD | NIL_WORD | FIRST_ATOM..=LAST_ATOM)
}

// Whether a word is one of those of which most values are made, cons, an atom or nil, at a spot that takes them: so told at once.
pub fn common(spot: usize, w: u32) -> bool
    ensures { result ≡ true → Common spot w }
{
    match spot {
        EXPRESSION | VALUE | PATTERN => value_word(w),
        _ => false,
    }
}

// Reads so many terms at a spot, from a position on, as far as the children stand at that spot too.
pub fn read_alike(row: &[u32], places: u32, at: usize, spot: usize, times: usize) -> Runs
    ensures { ReadsAlike places row.now at spot times result }
{
    let mut a = at;
    let mut left = times;
    while 0 < left {
        if row.len() <= a {
            return Err(BadWord(a));
        }
        let w = row[a];
        if common(spot, w) && left <= row.len() {
            a += 1;
            left = left - 1 + n(w) as usize;
            continue;
        }
        if !may_stand(places, spot, w) {
            return Err(BadWord(a));
        }
        if tag(w) == INTEGER {
            if row.len() - a < 2 {
                return Err(BadWord(a + 1));
            }
            a += 2;
            left -= 1;
            continue;
        }
        if !alike(spot, w) || row.len() < left {
            return Ok(Run::Turns(Ahead { at: a, owed: left }));
        }
        a += 1;
        left = left - 1 + n(w) as usize;
    }
    Ok(Run::Ends(a))
}

// Reads so many terms at a spot, from a position on, and says where they end; there are so many places.
pub fn read(
    row: &[u32],
    places: u32,
    at: usize,
    spot: usize,
    times: usize,
) -> Result<usize, BadWord>
    ensures { Reads places row.now at spot times result }
{
    let turn = match read_alike(row, places, at, spot, times)? {
        Run::Ends(a) => return Ok(a),
        Run::Turns(turn) => turn,
    };
    let r = runs(spot, row[turn.at]);
    let a = read(row, places, turn.at + 1, r.first, r.firsts)?;
    let b = read(row, places, a, r.second, r.seconds)?;
    let c = read(row, places, b, r.third, r.thirds)?;
    read(row, places, c, spot, turn.owed - 1)
}
