// Back and undeliver.
ghost use Rattle.rules.specs.Commands.{back as back_of, undeliver as undeliver_of};
ghost use Rattle.calls.specs.Numbers.{CommandCall};

use crate::held::{left, may_undo};
use calls::answers::{Answer, Refusal};
use reading::state::{entry_count, in_pool, queue};
use soundness::sound::sound;
use writing::posting::unpost;
use writing::undoing::undo;

// p's newest entry is undone. Each call begins with its own two refusals: one function for both would have a contract longer than they are.
pub fn back(store: &mut [u32], p: u32) -> Answer
    ensures { CommandCall (back_of p) store.old store.new result }
{
    if !sound(store) {
        return Err(Refusal::NotAState);
    }
    if !in_pool(store, p) {
        return Err(Refusal::NoProcess);
    }
    let count = entry_count(store, p as usize);
    if count == 0 {
        return Err(Refusal::NothingToUndo);
    }
    if !may_undo(store, p, count - 1) {
        return Err(Refusal::Held);
    }
    undo(store, p as usize);
    Ok(0)
}

// The newest message of p's queue goes back into flight.
pub fn undeliver(store: &mut [u32], p: u32) -> Answer
    ensures { CommandCall (undeliver_of p) store.old store.new result }
{
    if !sound(store) {
        return Err(Refusal::NotAState);
    }
    if !in_pool(store, p) {
        return Err(Refusal::NoProcess);
    }
    let queued = queue(store, p as usize).len();
    if queued == 0 {
        return Err(Refusal::NothingToUndo);
    }
    if queued <= left(store, p as usize) {
        return Err(Refusal::Held);
    }
    unpost(store, p as usize);
    Ok(0)
}
