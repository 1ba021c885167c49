// When two values are equal.
ghost use Rattle.std.specs.Prelude.{◌<◌, ◌≤◌, ◌+◌, ◌*◌, ◌-◌, length};
ghost use Rattle.row_laws.specs.Bounds.{most_children, pending_limit};
ghost use Rattle.operands.specs.Sames.{Sames};

use rows::tables::children;
use rows::words::{INTEGER, tag};

// Whether the `pending` terms at `i` in `a` are those at `j` in `b`; not where words run out, as they never do in whole terms.
// Equal terms have equal rows, so both rows are compared from the front; the terms still owed tell where they end.
pub fn same(a: &[u32], i: usize, b: &[u32], j: usize, pending: usize) -> bool
    requires { (i ≤ length a.now) × (pending + most_children * (length a.now - i) < pending_limit) }
    ensures { Sames a.now i b.now j pending result }
{
    let mut x = i;
    let mut y = j;
    let mut left = pending;
    while 0 < left {
        if a.len() <= x {
            return false;
        }
        if b.len() <= y {
            return false;
        }
        let w = a[x];
        if w != b[y] {
            return false;
        }
        if tag(w) == INTEGER {
            if a.len() - x < 2 {
                return false;
            }
            if b.len() - y < 2 {
                return false;
            }
            if a[x + 1] != b[y + 1] {
                return false;
            }
            x += 2;
            y += 2;
            left -= 1;
            continue;
        }
        x += 1;
        y += 1;
        left = left - 1 + children(w);
    }
    true
}
