// The working place.
ghost use Rattle.std.specs.Prelude.{◌≡◌, ◌&&◌, ℕ, ◌<◌, ◌≤◌, ◌+◌, ◌*◌, ◌-◌, leb, length, get_or};
ghost use Rattle.term.specs.Words.{tag_atom, tag_tuple};
ghost use Rattle.row_laws.specs.Bounds.{most_children, pending_limit, place_limit};
ghost use Rattle.copying.specs.Places.{EntersOf, Finds, PlaceIs};

use rows::tables::children;
use rows::words::{ATOM, CASE, INTEGER, LET, RECEIVE, TUPLE, n, tag};

// Whether a tag is one of those of values.
fn of_value(t: u32) -> bool
    ensures { result ≡ (leb tag_atom t && leb t tag_tuple) }
{
    ATOM <= t && t <= TUPLE
}

// How many children of a word may be gone into.
fn entered(w: u32) -> usize
    ensures { EntersOf w result }
{
    match tag(w) {
        RECEIVE => 0,
        CASE => 1,
        LET => { if n(w) == 0 { 0 } else { 1 } }
        _ => children(w),
    }
}

// Where the first word stands that is no value's, of the `pending` terms at `at`; the row's end where all are values, or where words run
// out, as they never do in whole terms.
fn past_values(src: &[u32], at: usize, pending: usize) -> usize
    requires { (at ≤ length src.now) × (pending + most_children * (length src.now - at) < pending_limit) }
    ensures { (at ≤ result)
        × ((here : ℕ) → length src.now ≤ result → Finds src.now at pending here here)
        × ((here c e : ℕ) → result < length src.now → EntersOf (get_or src.now result 0) c
        → Finds src.now (result + 1) c result e → Finds src.now at pending here e) }
{
    let mut x = at;
    let mut left = pending;
    while 0 < left {
        if src.len() <= x {
            return src.len();
        }
        let w = src[x];
        let t = tag(w);
        if t == INTEGER {
            if src.len() - x < 2 {
                return src.len();
            }
            x += 2;
            left -= 1;
            continue;
        }
        if !of_value(t) {
            return x;
        }
        x += 1;
        left = left - 1 + children(w);
    }
    src.len()
}

// Where the first of the `pending` terms at `at` that is no value is worked on; `here` where all are values,
// or where words run out, as they never do in whole terms.
pub fn find(src: &[u32], at: usize, pending: usize, here: usize) -> usize
    requires { (at ≤ length src.now) × (pending + most_children * (length src.now - at) < pending_limit) }
    ensures { Finds src.now at pending here result }
{
    let x = past_values(src, at, pending);
    if src.len() <= x {
        return here;
    }
    find(src, x + 1, entered(src[x]), x)
}

// The working place of a control; none where it is a value.
pub fn working_place(c: &[u32]) -> Option<usize>
    requires { length c.now < place_limit }
    ensures { PlaceIs c.now result }
{
    let at = find(c, 0, 1, c.len());
    if at < c.len() { Some(at) } else { None }
}
