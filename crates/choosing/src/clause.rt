// Clauses. Where none stands, which the control check rules out, none takes a value.
ghost use Rattle.std.specs.Prelude.{◌<◌, length};
ghost use Rattle.row_laws.specs.Bounds.{place_limit};
ghost use Rattle.choosing.specs.Clausal.{TakesAt, ChoosesAt};

use copying::matching::matches;
use operands::guard::holds;
use rows::terms::skip;
use rows::words::VARIABLES;

// Whether the clause at `at` in `c` takes the value at `va` in `v`.
pub fn takes(c: &[u32], at: usize, v: &[u32], va: usize) -> bool
    requires { (length c.now < place_limit) × (length v.now < place_limit) }
    ensures { TakesAt c.now at v.now va result }
{
    if c.len() <= at {
        return false;
    }
    let mut env = [0; VARIABLES];
    if !matches(c, at + 1, v, va, 1, &mut env) {
        return false;
    }
    let middle = skip(c, at + 1, 1);
    holds(c, middle, v, &env)
}

// The first of the `n` clauses at `at` that takes the value at `va`.
pub fn choose(c: &[u32], at: usize, n: usize, v: &[u32], va: usize) -> Option<usize>
    requires { (length c.now < place_limit) × (length v.now < place_limit) }
    ensures { ChoosesAt c.now at n v.now va result }
{
    if n == 0 || c.len() <= at {
        return None;
    }
    if takes(c, at, v, va) {
        return Some(at);
    }
    let next = skip(c, at, 1);
    if next <= at {
        return None;
    }
    choose(c, next, n - 1, v, va)
}
