// What the term at the working place becomes: one function for each kind of step. Where no such term stands, which the control check
// rules out, there is no next control.
ghost use Rattle.std.specs.Prelude.{◌≡◌, ◌<◌, ◌≤◌, length};
ghost use Rattle.row_laws.specs.Bounds.{place_limit};
ghost use Rattle.step.specs.Steps.{fitted_of, CalledAt, CallNext, CasedAt, ClauseNext, CaseNext, LetNext, ReceiveNext, ParametersAt, ApplyNext};

use choosing::clause::choose;
use copying::matching::matches;
use copying::next::{Swap, with_copy, with_integer, with_word};
use operands::operand::{Operand, here, operate};
use rows::functions::function_start;
use rows::terms::skip;
use rows::words::{INTEGER_WORD, VARIABLES, k, n};

// Why there is no next control: nothing is done, or it has no room.
#[derive(Clone, Copy)]
pub enum NoNext {
    Nothing,
    TooLarge,
}

// How many words the next control has.
pub type Next = Result<usize, NoNext>;

// What is written where there is nothing to write.
const NO_WORDS: usize = 0;

pub fn fitted(r: usize, room: usize) -> Next
    ensures { result ≡ fitted_of r room }
{
    if r <= room {
        Ok(r)
    } else {
        Err(NoNext::TooLarge)
    }
}

// What the call at `at` gives.
pub fn called(c: &[u32], at: usize) -> Option<Operand>
    requires { length c.now < place_limit }
    ensures { CalledAt c.now at result }
{
    if c.len() <= at {
        return None;
    }
    let w = c[at];
    let x = here(c, at + 1);
    let second = skip(c, at + 1, 1);
    let y = here(c, second);
    operate(c, c, k(w), x, y)
}

pub fn call_next(c: &[u32], at: usize, out: &mut [u32]) -> Next
    requires { (at ≤ length c.now) × (length c.now < place_limit) }
    ensures { CallNext c.now at out.old out.new result }
{
    let value = called(c, at).ok_or(NoNext::Nothing)?;
    // Never else: no operator gives a cons or a tuple.
    let Operand::Short(w, x) = value else {
        return Err(NoNext::Nothing);
    };
    let room = out.len();
    if w == INTEGER_WORD {
        return fitted(with_integer(c, at, x, out), room);
    }
    fitted(with_word(c, at, w, out), room)
}

// The clause that the case at `at` takes.
pub fn cased(c: &[u32], at: usize) -> Option<usize>
    requires { length c.now < place_limit }
    ensures { CasedAt c.now at result }
{
    if c.len() <= at {
        return None;
    }
    let w = c[at];
    let clauses = skip(c, at + 1, 1);
    choose(c, clauses, n(w) as usize, c, at + 1)
}

// The body of the clause at `clause` in place of the term at `at`, for the value at `va` in `v`.
fn clause_next(c: &[u32], at: usize, clause: usize, v: &[u32], va: usize, out: &mut [u32]) -> usize
    requires { (at ≤ length c.now) × (length c.now < place_limit) × (length v.now < place_limit) }
    ensures { ClauseNext c.now at clause v.now va out.old out.new result }
{
    // Never so: the place is that of a clause.
    if c.len() <= clause {
        return NO_WORDS;
    }
    let mut env = [0; VARIABLES];
    matches(c, clause + 1, v, va, 1, &mut env);
    let body = skip(c, clause + 1, 2);
    let swap = Swap { at, body };
    with_copy(c, c, swap, v, &env, out)
}

pub fn case_next(c: &[u32], at: usize, out: &mut [u32]) -> Next
    requires { (at ≤ length c.now) × (length c.now < place_limit) }
    ensures { CaseNext c.now at out.old out.new result }
{
    let clause = cased(c, at).ok_or(NoNext::Nothing)?;
    let room = out.len();
    fitted(clause_next(c, at, clause, c, at + 1, out), room)
}

pub fn let_next(c: &[u32], at: usize, out: &mut [u32]) -> Next
    requires { (at ≤ length c.now) × (length c.now < place_limit) }
    ensures { LetNext c.now at out.old out.new result }
{
    if c.len() <= at {
        return Err(NoNext::Nothing);
    }
    let mut env = [0; VARIABLES];
    let x = k(c[at]) as usize;
    // Never so: the control check asks for a variable.
    if VARIABLES <= x {
        return Err(NoNext::Nothing);
    }
    env[x] = at as u32 + 2;
    let body = skip(c, at + 1, 1);
    let room = out.len();
    let swap = Swap { at, body };
    fitted(with_copy(c, c, swap, c, &env, out), room)
}

// What the receive at `at` makes of the value `v`.
pub fn receive_next(c: &[u32], at: usize, v: &[u32], out: &mut [u32]) -> Next
    requires { (at ≤ length c.now) × (length c.now < place_limit) × (length v.now < place_limit) }
    ensures { ReceiveNext c.now at v.now out.old out.new result }
{
    if c.len() <= at {
        return Err(NoNext::Nothing);
    }
    let clause = choose(c, at + 1, n(c[at]) as usize, v, 0).ok_or(NoNext::Nothing)?;
    let room = out.len();
    fitted(clause_next(c, at, clause, v, 0, out), room)
}

// The places of the `count` values at `at` as those of the variables from `x` on.
fn parameters(c: &[u32], at: usize, count: usize, x: usize, env: &mut [u32])
    requires { length c.now < place_limit }
    ensures { ParametersAt c.now at count x env.old env.new }
{
    if count == 0 || c.len() <= at || env.len() <= x {
        return;
    }
    let after = skip(c, at, 1);
    parameters(c, after, count - 1, x + 1, env);
    env[x] = at as u32 + 1;
}

// The apply at `at` becomes the body of its function in `program`.
pub fn apply_next(program: &[u32], c: &[u32], at: usize, out: &mut [u32]) -> Next
    requires { (at ≤ length c.now) × (length c.now < place_limit) × (length program.now < place_limit) }
    ensures { ApplyNext program.now c.now at out.old out.new result }
{
    if c.len() <= at {
        return Err(NoNext::Nothing);
    }
    let w = c[at];
    let mut env = [0; VARIABLES];
    parameters(c, at + 1, n(w) as usize, 0, &mut env);
    let start = function_start(program, k(w) as usize);
    // Never so: the control check asks for a function of the module.
    if program.len() <= start {
        return Err(NoNext::Nothing);
    }
    let room = out.len();
    let swap = Swap {
        at,
        body: start + 1,
    };
    fitted(with_copy(c, program, swap, c, &env, out), room)
}
