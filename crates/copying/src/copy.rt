// Writing rows: words one after another as far as there is room. A place past the buffer's end is its length plus 1, and no `None`, as
// `Wrote` says: the words after it are then put by the same calls, and `fitted` tests once, at the end.
ghost use Rattle.std.specs.Prelude.{◌≡◌, [], ◌∷◌, suc, ◌<◌, ◌≤◌, ◌+◌, ◌*◌, ◌-◌, length, take, drop};
ghost use Rattle.row_laws.specs.Bounds.{most_children, pending_limit, walk_limit};
ghost use Rattle.copying.specs.Copies.{Wrote, CopiedTerm, CopiedTerms, EntryIs};

use rows::tables::children;
use rows::terms::{Ahead, skip};
use rows::words::{INTEGER, VARIABLE, k, tag};

pub fn put(out: &mut [u32], to: usize, w: u32) -> usize
    ensures { Wrote (w ∷ []) to out.old out.new result }
{
    if to < out.len() {
        out[to] = w;
        return to + 1;
    }
    out.len() + 1
}

// The `n` words of `src` from `from` on.
pub fn copy_words(src: &[u32], from: usize, n: usize, out: &mut [u32], to: usize) -> usize
    requires { (from + n ≤ length src.now) × (to ≤ suc (length out.old)) }
    ensures { Wrote (take n (drop from src.now)) to out.old out.new result }
{
    let mut b = to;
    for w in &src[from..from + n] {
        b = put(out, b, *w);
    }
    b
}

// The term at `at`; nothing where none stands, though an entry always has the place of a value.
pub fn copy_term(src: &[u32], at: usize, out: &mut [u32], to: usize) -> usize
    requires { (length src.now < walk_limit) × (to ≤ suc (length out.old)) }
    ensures { CopiedTerm src.now at to out.old out.new result }
{
    if src.len() <= at {
        return to;
    }
    let end = skip(src, at, 1);
    copy_words(src, at, end - at, out, to)
}

// Where the value stands that `env` has for the word `w`; none where `w` is no variable or is unbound.
// An entry is a word, as `Entry` says: the place after the value's, and 0 where there is none.
pub fn entry(env: &[u32], w: u32) -> Option<usize>
    ensures { EntryIs env.now w result }
{
    if tag(w) != VARIABLE {
        return None;
    }
    let after = *env.get(k(w) as usize)? as usize;
    after.checked_sub(1)
}

// The terms ahead, with the values of `env`, which stand in `v`, in place of their variables; no more where words run out, as they never
// do in whole terms.
pub fn copy(row: &[u32], ahead: Ahead, v: &[u32], env: &[u32], out: &mut [u32], to: usize) -> usize
    requires { (ahead.at ≤ length row.now) × (ahead.owed + most_children * (length row.now - ahead.at) < pending_limit) × (length v.now < walk_limit) × (to ≤ suc (length out.old)) }
    ensures { CopiedTerms row.now ahead.at ahead.owed v.now env.now to out.old out.new result }
{
    let at = ahead.at;
    if ahead.owed == 0 || row.len() <= at || out.len() < to {
        return to;
    }
    let w = row[at];
    let left = ahead.owed - 1;
    if let Some(place) = entry(env, w) {
        let b = copy_term(v, place, out, to);
        let a = at + 1;
        return copy(row, Ahead { at: a, owed: left }, v, env, out, b);
    }
    let b = put(out, to, w);
    if tag(w) == INTEGER {
        if row.len() - at < 2 {
            return b;
        }
        let d = put(out, b, row[at + 1]);
        let a = at + 2;
        return copy(row, Ahead { at: a, owed: left }, v, env, out, d);
    }
    let a = at + 1;
    let more = left + children(w);
    copy(row, Ahead { at: a, owed: more }, v, env, out, b)
}
