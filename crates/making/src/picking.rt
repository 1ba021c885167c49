// The message that a receive takes: the oldest that one of its clauses takes.
ghost use Rattle.store.specs.Image.{IsImage};
ghost use Rattle.reading.specs.Reads.{OfState, Lives};
ghost use Rattle.making.specs.Making.{IsSent, ValueSent, TakenRow, PickedRow};

use reading::mail::{find_send, value};
use reading::state::{control, queue};
use rows::words::NAME_BASE;
use step::control::taken;
use step::step::{Next, NoNext};

// The value of the message of that name, which was sent to p.
fn content<'a>(store: &'a [u32], p: usize, name: u32) -> &'a [u32]
    requires { IsImage store.now × OfState store.now (IsSent p name) }
    ensures { OfState store.now (ValueSent p name result.now) }
{
    let s = (name / NAME_BASE) as usize;
    // Never nowhere: it was sent.
    let Some(i) = find_send(store, s, name % NAME_BASE) else {
        return &store[..0];
    };
    value(store, s, i)
}

// The next control of p's receive for the message of that name.
fn taken_row(store: &[u32], p: usize, name: u32, out: &mut [u32]) -> Next
    requires { IsImage store.now × OfState store.now (Lives p) × OfState store.now (IsSent p name) }
    ensures { OfState store.now (TakenRow p name out.old out.new result) }
{
    taken(control(store, p), content(store, p, name), out)
}

// The place of the message in the queue, and the next control; the queue's length where none is taken. No `Option` of a pair: `PickIs` tells the
// place of a message whose next control is too large too.
#[derive(Clone, Copy)]
pub struct Picked {
    pub place: usize,
    pub next: Next,
}

pub fn pick(store: &[u32], p: usize, out: &mut [u32]) -> Picked
    requires { IsImage store.now × OfState store.now (Lives p) }
    ensures { OfState store.now (PickedRow p out.old out.new result) }
{
    let names = queue(store, p);
    for (i, name) in names.iter().enumerate() {
        match taken_row(store, p, *name, out) {
            Err(NoNext::Nothing) => {}
            next => return Picked { place: i, next },
        }
    }
    Picked {
        place: names.len(),
        next: Err(NoNext::Nothing),
    }
}
