// The rules past shape: binding, names of functions, numbers of checks.
ghost use Rattle.std.specs.Prelude.{◌≡◌, Bool, ◌||◌, List, ◌∷◌, ℕ, eqb};
ghost use Rattle.term.specs.Words.{tag_of, k_of, tag_let, tag_clause};
ghost use Rattle.term.specs.Binding.{names, checks_after};
ghost use Rattle.checks.specs.Walking.{Marks, Binds, Rules, Keeps, KeepsPlain, KeepsBoth, LightWord, variables, check_numbers};

use rows::tables::children;
use rows::terms::{Ahead, BadWord, Run, Runs};
use rows::words::{
    APPLY, ATOM, CALL, CHECK, CHECK_NUMBERS, CLAUSE, INTEGER, LET, SPAWN, VARIABLE, VARIABLES, k,
    n, tag,
};

// The scope with one more variable.
pub fn with(scope: &[bool; VARIABLES], v: usize) -> [bool; VARIABLES]
    ensures { (s : List ℕ) → Marks variables scope.now s → Marks variables result (v ∷ s) }
{
    let mut inner = *scope;
    if v < VARIABLES {
        inner[v] = true;
    }
    inner
}

// The variables of so many patterns come into scope, each of them new; where the patterns end.
pub fn bind(
    row: &[u32],
    at: usize,
    owed: usize,
    scope: &mut [bool; VARIABLES],
) -> Result<usize, BadWord>
    ensures { Binds row.now at owed scope.old scope.new result }
{
    if owed == 0 {
        return Ok(at);
    }
    if row.len() <= at || row.len() - at < owed {
        return Err(BadWord(at));
    }
    let w = row[at];
    match tag(w) {
        INTEGER => bind(row, at + 2, owed - 1, scope),
        VARIABLE => {
            let v = k(w) as usize;
            if VARIABLES <= v || scope[v] {
                return Err(BadWord(at));
            }
            scope[v] = true;
            bind(row, at + 1, owed - 1, scope)
        }
        _ => bind(row, at + 1, owed - 1 + children(w), scope),
    }
}

// Whether a function of this number has so many parameters.
pub fn named(arities: &[u32], function: usize, count: u32) -> bool
    ensures { result ≡ names arities.now function count }
{
    function < arities.len() && arities[function] == count
}

// Whether a word keeps its rule.
pub fn keeps_rule(
    w: u32,
    scope: &[bool; VARIABLES],
    arities: &[u32],
    unique: bool,
    checks: &[bool; CHECK_NUMBERS],
) -> bool
    ensures { Rules w scope.now arities.now unique checks.now result }
{
    let v = k(w) as usize;
    match tag(w) {
        APPLY | SPAWN => named(arities, v, n(w)),
        CHECK => v < CHECK_NUMBERS && !(unique && checks[v]),
        VARIABLE => v < VARIABLES && scope[v],
        LET => v < VARIABLES && !scope[v],
        _ => true,
    }
}

// A check's number is met.
pub fn meet(w: u32, checks: &mut [bool; CHECK_NUMBERS])
    ensures { (s : List ℕ) → Marks check_numbers checks.old s → Marks check_numbers checks.new (checks_after (tag_of w) (k_of w) s) }
{
    if tag(w) == CHECK {
        let v = k(w) as usize;
        if v < CHECK_NUMBERS {
            checks[v] = true;
        }
    }
}

// A light word names nothing and binds nothing: how many words it takes, and how many terms stand below it.
#[derive(Clone, Copy)]
pub struct Light {
    pub words: usize,
    pub below: usize,
}

pub fn light_word(w: u32) -> Option<Light>
    ensures { LightWord w result }
{
    match tag(w) {
        INTEGER => Some(Light { words: 2, below: 0 }),
        ATOM..=CALL => Some(Light {
            words: 1,
            below: n(w) as usize,
        }),
        _ => None,
    }
}

// Whether a tag opens a scope.
pub fn opens(tag: u32) -> bool
    ensures { result ≡ (eqb tag tag_let || eqb tag tag_clause) }
{
    tag == LET || tag == CLAUSE
}

// What is checked: a row, the parameter counts of the functions that it may name, and whether its numbers of checks have to differ.
#[derive(Clone, Copy)]
pub struct Subject<'a> {
    pub row: &'a [u32],
    pub arities: &'a [u32],
    pub unique: bool,
}

// Goes through the terms ahead, which stand outside patterns, as far as words open no scope.
pub fn keep_plain(
    subject: &Subject,
    ahead: Ahead,
    scope: &[bool; VARIABLES],
    checks: &mut [bool; CHECK_NUMBERS],
) -> Runs
    ensures { KeepsPlain subject.now.row.now ahead.at ahead.owed scope.now subject.now.arities.now subject.now.unique checks.old checks.new result }
{
    let row = subject.row;
    let mut a = ahead.at;
    let mut left = ahead.owed;
    while 0 < left {
        if row.len() <= a || row.len() - a < left {
            return Err(BadWord(a));
        }
        let w = row[a];
        if let Some(light) = light_word(w) {
            a += light.words;
            left = left - 1 + light.below;
            continue;
        }
        if !keeps_rule(w, scope, subject.arities, subject.unique, checks) {
            return Err(BadWord(a));
        }
        if opens(tag(w)) {
            return Ok(Run::Turns(Ahead { at: a, owed: left }));
        }
        meet(w, checks);
        a += 1;
        left = left - 1 + children(w);
    }
    Ok(Run::Ends(a))
}

// Goes through the terms ahead, which stand outside patterns, all in one scope; where they end.
#[cycle(keep_keep_both)]
pub fn keep(
    subject: &Subject,
    ahead: Ahead,
    scope: &[bool; VARIABLES],
    checks: &mut [bool; CHECK_NUMBERS],
) -> Result<usize, BadWord>
    ensures { Keeps subject.now.row.now ahead.at ahead.owed scope.now subject.now.arities.now subject.now.unique checks.old checks.new result }
{
    let turn = match keep_plain(subject, ahead, scope, checks)? {
        Run::Ends(a) => return Ok(a),
        Run::Turns(turn) => turn,
    };
    let w = subject.row[turn.at];
    let from = turn.at + 1;
    let after = turn.owed - 1;
    if tag(w) == LET {
        let term = Ahead { at: from, owed: 1 };
        let a = keep(subject, term, scope, checks)?;
        let inner = with(scope, k(w) as usize);
        let body = Ahead { at: a, owed: 1 };
        return keep_both(subject, body, &inner, after, scope, checks);
    }
    let mut inner = *scope;
    let a = bind(subject.row, from, 1, &mut inner)?;
    let guarded = Ahead { at: a, owed: 2 };
    keep_both(subject, guarded, &inner, after, scope, checks)
}

// Goes through the terms ahead in an inner scope, then through so many in the outer one.
#[cycle(keep_keep_both)]
pub fn keep_both(
    subject: &Subject,
    ahead: Ahead,
    inner: &[bool; VARIABLES],
    after: usize,
    outer: &[bool; VARIABLES],
    checks: &mut [bool; CHECK_NUMBERS],
) -> Result<usize, BadWord>
    ensures { KeepsBoth subject.now.row.now ahead.at ahead.owed after inner.now outer.now subject.now.arities.now subject.now.unique checks.old checks.new result }
{
    let a = keep(subject, ahead, inner, checks)?;
    let rest = Ahead { at: a, owed: after };
    keep(subject, rest, outer, checks)
}
