// Matching patterns against values.
ghost use Rattle.std.specs.Prelude.{◌<◌, ◌≤◌, ◌+◌, ◌*◌, ◌-◌, length};
ghost use Rattle.row_laws.specs.Bounds.{most_children, pending_limit, place_limit};
ghost use Rattle.copying.specs.Matching.{Matches};

use rows::tables::children;
use rows::terms::skip;
use rows::words::{INTEGER, VARIABLE, k, tag};

// Whether the `pending` values at `va` in `v` fit the patterns at `pa` in `p`; for each variable `env` gets the place after its value's, so that 0 is none's, as `Entry` says.
// Not where words run out or a variable has no entry, which the control check rules out.
pub fn matches(p: &[u32], pa: usize, v: &[u32], va: usize, pending: usize, env: &mut [u32]) -> bool
    requires { (pa ≤ length p.now) × (pending + most_children * (length p.now - pa) < pending_limit) × (length v.now < place_limit) }
    ensures { Matches p.now pa v.now va pending env.old env.new result }
{
    if pending == 0 {
        return true;
    }
    if p.len() <= pa || v.len() <= va {
        return false;
    }
    let w = p[pa];
    if tag(w) == VARIABLE {
        let x = k(w) as usize;
        if env.len() <= x {
            return false;
        }
        env[x] = va as u32 + 1;
        return matches(p, pa + 1, v, skip(v, va, 1), pending - 1, env);
    }
    if w != v[va] {
        return false;
    }
    if tag(w) == INTEGER {
        if p.len() - pa < 2 || v.len() - va < 2 || p[pa + 1] != v[va + 1] {
            return false;
        }
        return matches(p, pa + 2, v, va + 2, pending - 1, env);
    }
    matches(p, pa + 1, v, va + 1, pending - 1 + children(w), env)
}
