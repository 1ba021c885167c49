// Deliver: a message comes from flight to its target's queue.
ghost use Rattle.rules.specs.Commands.{deliver as deliver_of};
ghost use Rattle.calls.specs.Numbers.{CommandCall};

use calls::answers::{Answer, Refusal};
use reading::mail::{find_send, has_come, target};
use reading::state::in_pool;
use rows::words::NAME_BASE;
use soundness::sound::sound;
use writing::posting::post;

// Message s.k comes from flight to the end of its target's queue.
pub fn deliver(store: &mut [u32], s: u32, k: u32) -> Answer
    ensures { CommandCall (deliver_of s k) store.old store.new result }
{
    if !sound(store) {
        return Err(Refusal::NotAState);
    }
    if !in_pool(store, s) {
        return Err(Refusal::NoMessage);
    }
    let i = find_send(store, s as usize, k).ok_or(Refusal::NoMessage)?;
    let t = target(store, s as usize, i);
    let name = s * NAME_BASE + k;
    if has_come(store, t as usize, name) {
        return Err(Refusal::NoMessage);
    }
    post(store, t as usize, name);
    Ok(0)
}
