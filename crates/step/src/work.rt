// What a control is about to do.
ghost use Rattle.std.specs.Prelude.{◌<◌, ◌≤◌, length};
ghost use Rattle.row_laws.specs.Bounds.{place_limit};
ghost use Rattle.step.specs.Controls.{CallDoing, CaseDoing, SendDoing, DoingAt, DoingOf};

use crate::step::{called, cased};
use copying::place::working_place;
use rows::words::{APPLY, CALL, CASE, CHECK, LET, PID, RECEIVE, SELF, SEND, SPAWN, k, tag};

// The cases of 01; a send with its target, a check with its number.
#[derive(Clone, Copy)]
pub enum Doing {
    Finished,
    Stuck,
    Seq,
    Send(u32),
    Receive,
    Spawn,
    Own,
    Check(u32),
}

// Written out as in `case_doing`: one function that is lent `called` or `cased` would have to state the promises of both.
fn call_doing(c: &[u32], at: usize) -> Doing
    requires { length c.now < place_limit }
    ensures { CallDoing c.now at result }
{
    match called(c, at) {
        Some(_) => Doing::Seq,
        None => Doing::Stuck,
    }
}

fn case_doing(c: &[u32], at: usize) -> Doing
    requires { length c.now < place_limit }
    ensures { CaseDoing c.now at result }
{
    match cased(c, at) {
        Some(_) => Doing::Seq,
        None => Doing::Stuck,
    }
}

fn send_doing(c: &[u32], at: usize) -> Doing
    requires { at ≤ length c.now }
    ensures { SendDoing c.now at result }
{
    if c.len() - at < 2 {
        return Doing::Stuck;
    }
    let w = c[at + 1];
    if tag(w) == PID {
        return Doing::Send(k(w));
    }
    Doing::Stuck
}

// What is done at the working place `at`; stuck where no term stands that can be worked on, which the control check rules out.
fn doing_at(c: &[u32], at: usize) -> Doing
    requires { length c.now < place_limit }
    ensures { DoingAt c.now at result }
{
    if c.len() <= at {
        return Doing::Stuck;
    }
    let w = c[at];
    match tag(w) {
        CALL => call_doing(c, at),
        APPLY | LET => Doing::Seq,
        CASE => case_doing(c, at),
        RECEIVE => Doing::Receive,
        SPAWN => Doing::Spawn,
        SEND => send_doing(c, at),
        SELF => Doing::Own,
        CHECK => Doing::Check(k(w)),
        _ => Doing::Stuck,
    }
}

// What the control `c` is about to do.
pub fn about_to(c: &[u32]) -> Doing
    requires { length c.now < place_limit }
    ensures { DoingOf c.now result }
{
    match working_place(c) {
        Some(at) => doing_at(c, at),
        None => Doing::Finished,
    }
}
