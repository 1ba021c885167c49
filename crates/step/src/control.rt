// What a control becomes: the next control, written into a lent buffer.
ghost use Rattle.std.specs.Prelude.{◌<◌, length};
ghost use Rattle.row_laws.specs.Bounds.{place_limit};
ghost use Rattle.step.specs.Becomes.{BecomesWord, Receives, SeqNext, Sent, SendNext, ChildNext};

use crate::step::{Next, NoNext, apply_next, call_next, case_next, fitted, let_next, receive_next};
use copying::copy::{copy_words, put};
use copying::next::{Swap, with_copy, with_word};
use copying::place::working_place;
use rows::terms::skip;
use rows::words::{APPLY, CALL, CASE, LET, VARIABLES, k, n, tag, word_of};

// The control with the word `w` in its working place: a check's atom, a self's or a spawn's pid.
pub fn word_next(c: &[u32], w: u32, out: &mut [u32]) -> Next
    requires { length c.now < place_limit }
    ensures { BecomesWord c.now w out.old out.new result }
{
    let at = working_place(c).ok_or(NoNext::Nothing)?;
    let room = out.len();
    fitted(with_word(c, at, w, out), room)
}

// The control of a receive, for one message's row `v`; nothing where no clause takes it.
pub fn taken(c: &[u32], v: &[u32], out: &mut [u32]) -> Next
    requires { (length c.now < place_limit) × (length v.now < place_limit) }
    ensures { Receives c.now v.now out.old out.new result }
{
    let at = working_place(c).ok_or(NoNext::Nothing)?;
    receive_next(c, at, v, out)
}

// The next control of a call, an apply, a case or a let; nothing where it is stuck.
pub fn seq_next(program: &[u32], c: &[u32], out: &mut [u32]) -> Next
    requires { (length c.now < place_limit) × (length program.now < place_limit) }
    ensures { SeqNext program.now c.now out.old out.new result }
{
    let at = working_place(c).ok_or(NoNext::Nothing)?;
    match tag(c[at]) {
        CALL => call_next(c, at, out),
        APPLY => apply_next(program, c, at, out),
        CASE => case_next(c, at, out),
        LET => let_next(c, at, out),
        _ => Err(NoNext::Nothing),
    }
}

// The value that a send is about to send: the place of its first word, and the place after it.
#[derive(Clone, Copy)]
pub struct Extent {
    pub from: usize,
    pub to: usize,
}

// Of a finished control, which sends nothing, no words.
pub fn sent(c: &[u32]) -> Extent
    requires { length c.now < place_limit }
    ensures { Sent c.now result }
{
    let Some(at) = working_place(c) else {
        return Extent { from: 0, to: 0 };
    };
    let from = skip(c, at + 1, 1);
    let to = skip(c, from, 1);
    Extent { from, to }
}

// The control with a send's value in its working place.
pub fn send_next(c: &[u32], out: &mut [u32]) -> Next
    requires { length c.now < place_limit }
    ensures { SendNext c.now out.old out.new result }
{
    let at = working_place(c).ok_or(NoNext::Nothing)?;
    let value = skip(c, at + 1, 1);
    let env = [0; VARIABLES];
    let room = out.len();
    let swap = Swap { at, body: value };
    fitted(with_copy(c, c, swap, c, &env, out), room)
}

// The first control of a spawn's child: the spawn's term with the tag of apply.
pub fn child(c: &[u32], out: &mut [u32]) -> Next
    requires { length c.now < place_limit }
    ensures { ChildNext c.now out.old out.new result }
{
    let at = working_place(c).ok_or(NoNext::Nothing)?;
    let w = c[at];
    let first = at + 1;
    let end = skip(c, at, 1);
    // Neither is ever so: a term ends behind its first word, and within the row.
    if end < first {
        return Err(NoNext::Nothing);
    }
    if c.len() < end {
        return Err(NoNext::Nothing);
    }
    let room = out.len();
    let to = put(out, 0, word_of(APPLY, n(w), k(w)));
    fitted(copy_words(c, first, end - first, out, to), room)
}
