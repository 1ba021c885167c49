// Text commands performed on a store, and what is printed for them.
ghost use Rattle.parsing.specs.Requests.{request_of};
ghost use Rattle.calls.specs.Calls.{outcome, AskedCall};
ghost use Rattle.calls.specs.Numbers.{number_of, value_of, TextCall};
ghost use Rattle.replies.specs.Replied.{Replied};

use backward::backward::{back, undeliver};
use calls::answers::{Answer, Refusal};
use delivery::delivery::deliver;
use forward::commands::{spawn, step};
use parsing::parsing::{Command, parse_line};
use replies::replies::write_reply;
use rollback::rollback::rollback;

// What a line asks for.
fn perform(store: &mut [u32], asked: Option<Command>) -> Answer
    ensures { AskedCall (request_of asked) store.old (outcome (number_of result) (value_of result) store.new) }
{
    let command = asked.ok_or(Refusal::BadLine)?;
    match command {
        Command::Step(p) => step(store, p),
        Command::Spawn(p, f) => spawn(store, p, f),
        Command::Deliver(s, k) => deliver(store, s, k),
        Command::Back(p) => back(store, p),
        Command::Undeliver(p) => undeliver(store, p),
        Command::Rollback(p, t) => rollback(store, p, t),
    }
}

// A text command: 17 before anything is looked at, else as the call that it asks for.
pub fn line(store: &mut [u32], text: &[u8]) -> Answer
    ensures { TextCall text.now store.old store.new result }
{
    perform(store, parse_line(text))
}

// A text command with what is printed for it, from a position of the output on.
pub fn reply(store: &mut [u32], text: &[u8], out: &mut [u8], at: usize) -> usize
    ensures { Replied text.now store.old store.new at out.old out.new result }
{
    let asked = parse_line(text);
    let a = perform(store, asked);
    write_reply(out, at, asked, a)
}
