// Operands: what a value or a guard's part gives, and the operators on them.
ghost use Rattle.std.specs.Prelude.{◌≡◌, ◌<◌, length, Some};
ghost use Rattle.std.proofs.Math.Option.{some};
ghost use Rattle.machine.specs.Value.{truth};
ghost use Rattle.machine.specs.Operator.{on_integers, signed};
ghost use Rattle.row_laws.specs.Bounds.{walk_limit};
ghost use Rattle.operands.specs.Answers.{number};
ghost use Rattle.operands.specs.Operands.{GivesAnywhere, Equals, Operates, StandsHere, StandsThere, SameShort, SameLong, Arithmetic};

use crate::integer::{AT_MOST, EQUAL, LESS, UNEQUAL, compute};
use crate::same::same;
use rows::words::{CONS, INTEGER_WORD, TUPLE, tag};

// Truth is atom 0, falsehood atom 1.
pub const TRUE_WORD: u32 = 0x0200_0000;

pub const FALSE_WORD: u32 = TRUE_WORD + 1;

// A stuck operand is none.
#[derive(Clone, Copy)]
pub enum Operand {
    Short(u32, u32),
    Here(usize),
    There(usize),
}

pub fn truth_of(b: bool) -> Operand
    ensures { GivesAnywhere (Some result) (some (truth b)) }
{
    if b {
        return Operand::Short(TRUE_WORD, 0);
    }
    Operand::Short(FALSE_WORD, 0)
}

pub fn number_of(r: Option<i32>) -> Option<Operand>
    ensures { GivesAnywhere result (number r) }
{
    let z = r?;
    Some(Operand::Short(INTEGER_WORD, z.cast_unsigned()))
}

// An operator but =:= and =/= on the integers of two words.
pub fn on_integers(op: u32, a: u32, b: u32) -> Option<Operand>
    ensures { GivesAnywhere result (on_integers op (signed a) (signed b)) }
{
    let x = a.cast_signed();
    let y = b.cast_signed();
    match op {
        LESS => Some(truth_of(x < y)),
        AT_MOST => Some(truth_of(x <= y)),
        _ => number_of(compute(op, x, y)),
    }
}

// The value at `at`, in the row where it is used; stuck where none stands, which the control check rules out.
pub fn here(row: &[u32], at: usize) -> Option<Operand>
    ensures { StandsHere row.now at result }
{
    let w = *row.get(at)?;
    let t = tag(w);
    if t == CONS || t == TUPLE {
        return Some(Operand::Here(at));
    }
    if w != INTEGER_WORD {
        return Some(Operand::Short(w, 0));
    }
    Some(Operand::Short(w, *row.get(at + 1)?))
}

// The same value, taken in another row.
pub fn elsewhere(row: &[u32], at: usize) -> Option<Operand>
    ensures { StandsThere row.now at result }
{
    match here(row, at)? {
        Operand::Here(i) => Some(Operand::There(i)),
        other => Some(other),
    }
}

// Whether a short value is the operand `y`.
fn same_short(w: u32, p: u32, y: Operand) -> bool
    ensures { SameShort w p y result }
{
    match y {
        Operand::Short(v, q) => w == v && p == q,
        _ => false,
    }
}

// Whether the cons or tuple at `i` in `a` is the operand `y`.
fn same_long(a: &[u32], i: usize, here: &[u32], there: &[u32], y: Operand) -> bool
    requires { length a.now < walk_limit }
    ensures { SameLong a.now i here.now there.now y result }
{
    // Never so: an operand is the place of a value.
    if a.len() <= i {
        return false;
    }
    match y {
        Operand::Here(j) => same(a, i, here, j, 1),
        Operand::There(j) => same(a, i, there, j, 1),
        Operand::Short(..) => false,
    }
}

// Whether two operands are the same value.
pub fn equal(here: &[u32], there: &[u32], x: Option<Operand>, y: Option<Operand>) -> bool
    requires { (length here.now < walk_limit) × (length there.now < walk_limit) }
    ensures { Equals here.now there.now x y result }
{
    let (Some(x), Some(y)) = (x, y) else {
        return false;
    };
    match x {
        Operand::Short(w, p) => same_short(w, p, y),
        Operand::Here(i) => same_long(here, i, here, there, y),
        Operand::There(i) => same_long(there, i, here, there, y),
    }
}

// An operator but =:= and =/=: both operands are integers, or it is stuck.
fn arithmetic(op: u32, x: Operand, y: Operand) -> Option<Operand>
    ensures { Arithmetic op x y result }
{
    let (Operand::Short(w, a), Operand::Short(v, b)) = (x, y) else {
        return None;
    };
    if w != INTEGER_WORD || v != INTEGER_WORD {
        return None;
    }
    on_integers(op, a, b)
}

// An operator on two operands.
pub fn operate(
    here: &[u32],
    there: &[u32],
    op: u32,
    x: Option<Operand>,
    y: Option<Operand>,
) -> Option<Operand>
    requires { (length here.now < walk_limit) × (length there.now < walk_limit) }
    ensures { Operates here.now there.now op x y result }
{
    let first = x?;
    let second = y?;
    match op {
        EQUAL => Some(truth_of(equal(here, there, x, y))),
        UNEQUAL => Some(truth_of(!equal(here, there, x, y))),
        _ => arithmetic(op, first, second),
    }
}
