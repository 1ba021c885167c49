// The lines for an answer.
ghost use Rattle.std.specs.Prelude.{◌≤◌, ◌≡◌, length};
ghost use Rattle.parsing.specs.Requests.{request_of};
ghost use Rattle.text.specs.Written.{Wrote};
ghost use Rattle.replies.specs.Replied.{rolls_back, reply_text, reply_room};

use calls::answers::{Answer, number};
use parsing::parsing::Command;
use text::replies::{write_answer, write_undone};

// Whether a line asks for a rollback. In one nested pattern the proof does not close: its `_` does not say which variants are gone.
fn is_rollback(asked: Option<Command>) -> bool
    ensures { result ≡ rolls_back (request_of asked) }
{
    match asked {
        Some(command) => matches!(command, Command::Rollback(..)),
        None => false,
    }
}

// The lines for an answer: its number, and the count of an accepted rollback.
pub fn write_reply(out: &mut [u8], at: usize, asked: Option<Command>, a: Answer) -> usize
    ensures wrote { Wrote (reply_text (request_of asked) a) at out.old out.new result }
    ensures short { length (reply_text (request_of asked) a) ≤ reply_room }
{
    let to = write_answer(out, at, number(a));
    let Ok(count) = a else {
        return to;
    };
    if is_rollback(asked) {
        write_undone(out, to, count)
    } else {
        to
    }
}
