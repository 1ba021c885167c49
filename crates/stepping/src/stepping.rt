// One function for each thing that a process may be about to do.
ghost use Rattle.rules.specs.Commands.{step as step_of, spawn_into};
ghost use Rattle.step.specs.declared.work.Doing.TheVariants.{Seq, Send, Receive, Spawn, Own, Check};
ghost use Rattle.store.specs.Image.{IsImage};
ghost use Rattle.reading.specs.Reads.{OfState, Lives};
ghost use Rattle.calls.specs.Answering.{Does};
ghost use Rattle.making.specs.Making.{Sized};
ghost use Rattle.stepping.specs.Stepping.{About, Free};

use calls::answers::{Answer, Refusal};
use making::making::{make, make_rec, make_spawn};
use making::next::{child_row, doing, send_row, seq_row, word_row};
use making::picking::{Picked, pick};
use reading::state::{in_pool, places};
use rows::words::{ATOM, PID, word_of};
use step::step::NoNext;
use step::work::Doing;
use store::layout::{CHECK, SELF, SEND, SEQ};

fn step_seq(store: &mut [u32], p: u32, out: &mut [u32]) -> Answer
    requires { IsImage store.old × OfState store.old (About p Seq) × OfState store.old (Sized out.old) }
    ensures { Does (step_of p) store.old store.new result }
{
    let next = seq_row(store, p as usize, out);
    make(store, p as usize, SEQ, 0, next, out)
}

// A send to t; a target that is not in the pool is stuck.
fn step_send(store: &mut [u32], p: u32, t: u32, out: &mut [u32]) -> Answer
    requires { IsImage store.old × OfState store.old (About p (Send t)) × OfState store.old (Sized out.old) }
    ensures { Does (step_of p) store.old store.new result }
{
    if !in_pool(store, t) {
        return Err(Refusal::Stuck);
    }
    let next = send_row(store, p as usize, out);
    make(store, p as usize, SEND, 0, next, out)
}

fn step_self(store: &mut [u32], p: u32, out: &mut [u32]) -> Answer
    requires { IsImage store.old × OfState store.old (About p Own) × OfState store.old (Sized out.old) }
    ensures { Does (step_of p) store.old store.new result }
{
    let next = word_row(store, p as usize, word_of(PID, 0, p), out);
    make(store, p as usize, SELF, 0, next, out)
}

fn step_check(store: &mut [u32], p: u32, k: u32, out: &mut [u32]) -> Answer
    requires { IsImage store.old × OfState store.old (About p (Check k)) × OfState store.old (Sized out.old) }
    ensures { Does (step_of p) store.old store.new result }
{
    let next = word_row(store, p as usize, word_of(ATOM, 0, k), out);
    make(store, p as usize, CHECK, k, next, out)
}

fn step_receive(store: &mut [u32], p: u32, out: &mut [u32]) -> Answer
    requires { IsImage store.old × OfState store.old (About p Receive) × OfState store.old (Sized out.old) }
    ensures { Does (step_of p) store.old store.new result }
{
    let Picked { place, next } = pick(store, p as usize, out);
    match next {
        Err(NoNext::Nothing) => Err(Refusal::Waiting),
        Err(NoNext::TooLarge) => Err(Refusal::TooLarge),
        Ok(n) => make_rec(store, p as usize, place, n, out),
    }
}

// p lives: one step of it that isn't a spawn.
pub fn step_live(store: &mut [u32], p: u32, out: &mut [u32]) -> Answer
    requires { IsImage store.old × OfState store.old (Lives p) × OfState store.old (Sized out.old) }
    ensures { Does (step_of p) store.old store.new result }
{
    let d = doing(store, p as usize);
    match d {
        Doing::Finished => Err(Refusal::Finished),
        Doing::Stuck => Err(Refusal::Stuck),
        Doing::Seq => step_seq(store, p, out),
        Doing::Send(t) => step_send(store, p, t, out),
        Doing::Receive => step_receive(store, p, out),
        Doing::Spawn => Err(Refusal::WrongCommand),
        Doing::Own => step_self(store, p, out),
        Doing::Check(k) => step_check(store, p, k, out),
    }
}

// A spawn into a free place f.
fn spawn_free(store: &mut [u32], p: u32, f: u32, out: &mut [u32], first: &mut [u32]) -> Answer
    requires { IsImage store.old × OfState store.old (About p Spawn) × OfState store.old (Free f) × OfState store.old (Sized out.old) × OfState store.old (Sized first.old) }
    ensures { Does (spawn_into p f) store.old store.new result }
{
    // Never else: the child's first control is no longer than its parent's.
    let Ok(m) = child_row(store, p as usize, first) else {
        return Err(Refusal::TooLarge);
    };
    let next = word_row(store, p as usize, word_of(PID, 0, f), out);
    make_spawn(store, p as usize, f as usize, next, out, &first[..m])
}

// p is at a spawn.
fn spawn_at(store: &mut [u32], p: u32, f: u32, out: &mut [u32], first: &mut [u32]) -> Answer
    requires { IsImage store.old × OfState store.old (About p Spawn) × OfState store.old (Sized out.old) × OfState store.old (Sized first.old) }
    ensures { Does (spawn_into p f) store.old store.new result }
{
    if places(store) <= f as usize {
        return Err(Refusal::PlaceTaken);
    }
    if in_pool(store, f) {
        return Err(Refusal::PlaceTaken);
    }
    spawn_free(store, p, f, out, first)
}

// p lives: a spawn of it into place f.
pub fn spawn_live(store: &mut [u32], p: u32, f: u32, out: &mut [u32], first: &mut [u32]) -> Answer
    requires { IsImage store.old × OfState store.old (Lives p) × OfState store.old (Sized out.old) × OfState store.old (Sized first.old) }
    ensures { Does (spawn_into p f) store.old store.new result }
{
    let d = doing(store, p as usize);
    match d {
        Doing::Finished => Err(Refusal::Finished),
        Doing::Spawn => spawn_at(store, p, f, out, first),
        _ => Err(Refusal::WrongCommand),
    }
}
