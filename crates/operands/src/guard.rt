// Guards, under the bindings of their clause.
ghost use Rattle.std.specs.Prelude.{◌<◌, length};
ghost use Rattle.row_laws.specs.Bounds.{walk_limit};
ghost use Rattle.operands.specs.Guards.{Looked, GuardAt, HoldsAt};

use crate::operand::{Operand, TRUE_WORD, elsewhere, here, operate};
use rows::terms::skip;
use rows::words::{CALL, VARIABLE, k, tag};

// What a guard gives, and where it ends.
#[derive(Clone, Copy)]
pub struct Given {
    pub what: Option<Operand>,
    pub end: usize,
}

// The value of variable `x`. An entry is a word: the place after the value's, and 0 where there is none.
fn bound(v: &[u32], env: &[u32], x: usize) -> Option<Operand>
    ensures { Looked v.now env.now x result }
{
    let after = *env.get(x)? as usize;
    let place = after.checked_sub(1)?;
    elsewhere(v, place)
}

// What the guard at `at` in `c` gives, where `env` has the places of values in `v`; stuck where none stands, which the control check rules out.
pub fn guard(c: &[u32], at: usize, v: &[u32], env: &[u32]) -> Given
    requires { (length c.now < walk_limit) × (length v.now < walk_limit) }
    ensures { GuardAt c.now at v.now env.now result }
{
    if c.len() <= at {
        return Given {
            what: None,
            end: at,
        };
    }
    let w = c[at];
    match tag(w) {
        VARIABLE => Given {
            what: bound(v, env, k(w) as usize),
            end: at + 1,
        },
        CALL => {
            let first = guard(c, at + 1, v, env);
            if first.end <= at {
                return Given {
                    what: None,
                    end: at,
                };
            }
            let second = guard(c, first.end, v, env);
            let x = first.what;
            let y = second.what;
            Given {
                what: operate(c, v, k(w), x, y),
                end: second.end,
            }
        }
        _ => Given {
            what: here(c, at),
            end: skip(c, at, 1),
        },
    }
}

// Whether the guard at `at` gives atom 0.
pub fn holds(c: &[u32], at: usize, v: &[u32], env: &[u32]) -> bool
    requires { (length c.now < walk_limit) × (length v.now < walk_limit) }
    ensures { HoldsAt c.now at v.now env.now result }
{
    let Some(what) = guard(c, at, v, env).what else {
        return false;
    };
    match what {
        Operand::Short(w, _) => w == TRUE_WORD,
        _ => false,
    }
}
