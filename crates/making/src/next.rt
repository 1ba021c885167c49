// What a process is about to do, and its next control, written into a lent buffer.
ghost use Rattle.std.specs.Prelude.{◌≡◌};
ghost use Rattle.store.specs.Image.{IsImage};
ghost use Rattle.step.specs.Controls.{doing_of};
ghost use Rattle.reading.specs.Reads.{OfState, Lives};
ghost use Rattle.making.specs.Making.{about, SeqRow, SendRow, WordRow, ChildRow};

use reading::state::{control, program};
use step::control::{child, send_next, seq_next, word_next};
use step::step::Next;
use step::work::{Doing, about_to};

// What p is about to do.
pub fn doing(store: &[u32], p: usize) -> Doing
    requires { IsImage store.now × OfState store.now (Lives p) }
    ensures { OfState store.now (λ s. result ≡ doing_of (about s p)) }
{
    about_to(control(store, p))
}

// The next control of a call, an apply, a case or a let.
pub fn seq_row(store: &[u32], p: usize, out: &mut [u32]) -> Next
    requires { IsImage store.now × OfState store.now (Lives p) }
    ensures { OfState store.now (SeqRow p out.old out.new result) }
{
    seq_next(program(store), control(store, p), out)
}

// The next control of a send.
pub fn send_row(store: &[u32], p: usize, out: &mut [u32]) -> Next
    requires { IsImage store.now × OfState store.now (Lives p) }
    ensures { OfState store.now (SendRow p out.old out.new result) }
{
    send_next(control(store, p), out)
}

// The next control of a self, a spawn or a check, whose working place becomes the word `w`.
pub fn word_row(store: &[u32], p: usize, w: u32, out: &mut [u32]) -> Next
    requires { IsImage store.now × OfState store.now (Lives p) }
    ensures { OfState store.now (WordRow p w out.old out.new result) }
{
    word_next(control(store, p), w, out)
}

// The first control of the child of a spawn.
pub fn child_row(store: &[u32], p: usize, out: &mut [u32]) -> Next
    requires { IsImage store.now × OfState store.now (Lives p) }
    ensures { OfState store.now (ChildRow p out.old out.new result) }
{
    child(control(store, p), out)
}
