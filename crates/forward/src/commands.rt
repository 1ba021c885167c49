// Step and spawn.
ghost use Rattle.rules.specs.Commands.{step as step_of, spawn_into};
ghost use Rattle.calls.specs.Numbers.{CommandCall};

use calls::answers::{Answer, Refusal};
use reading::state::{in_pool, most_words};
use soundness::sound::sound;
use stepping::stepping::{spawn_live, step_live};
use store::layout::CONTROL_ROOM;

// One step of p that isn't a spawn.
pub fn step(store: &mut [u32], p: u32) -> Answer
    ensures { CommandCall (step_of p) store.old store.new result }
{
    if !sound(store) {
        return Err(Refusal::NotAState);
    }
    if !in_pool(store, p) {
        return Err(Refusal::NoProcess); // nobody steps
    }
    let mut row = [0; CONTROL_ROOM];
    let words = most_words(store);
    step_live(store, p, &mut row[..words])
}

// A spawn of p into place f.
pub fn spawn(store: &mut [u32], p: u32, f: u32) -> Answer
    ensures { CommandCall (spawn_into p f) store.old store.new result }
{
    if !sound(store) {
        return Err(Refusal::NotAState);
    }
    if !in_pool(store, p) {
        return Err(Refusal::NoProcess);
    }
    let mut row = [0; CONTROL_ROOM];
    let mut first = [0; CONTROL_ROOM];
    let words = most_words(store);
    spawn_live(store, p, f, &mut row[..words], &mut first[..words])
}
