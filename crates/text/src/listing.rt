// The lines of the listing.
ghost use Rattle.std.specs.Prelude.{◌≡◌, map};
ghost use Rattle.rules.specs.Text.{spaced};
ghost use Rattle.text.specs.Written.{Wrote};
ghost use Rattle.text.specs.Lines.{name_in, newest_bytes, newest_line, queue_line, words_line, process_text};

use crate::keys::{
    HISTORY, KIND_CHECK, KIND_NONE, KIND_REC, KIND_SELF, KIND_SEND, KIND_SEQ, KIND_SPAWN, NEWEST,
    PID, QUEUE, WORDS,
};
use crate::replies::write_number_line;
use crate::writing::{past, write_bytes, write_gap, write_line_feed, write_name, write_words};
use kinds::Kind;
use rows::words::NAME_BASE;

// The name of a kind, or of none.
fn kind_name(newest: Option<Kind>) -> &'static [u8]
    ensures { result.now ≡ newest_bytes newest }
{
    let Some(kind) = newest else {
        return &KIND_NONE;
    };
    match kind {
        Kind::Seq => &KIND_SEQ,
        Kind::Send => &KIND_SEND,
        Kind::Rec => &KIND_REC,
        Kind::Spawn => &KIND_SPAWN,
        Kind::Own => &KIND_SELF,
        Kind::Check => &KIND_CHECK,
    }
}

// The kind of its newest entry.
pub fn write_newest(out: &mut [u8], at: usize, newest: Option<Kind>) -> usize
    ensures { Wrote (newest_line newest) at out.old out.new result }
{
    let to = write_bytes(out, at, &NEWEST);
    let end = write_bytes(out, to, kind_name(newest));
    write_line_feed(out, end)
}

// Names split by single spaces, each in a word. One loop over these and `write_words` would take a closure for the piece, whose contract is longer
// than the loop that it saves.
pub fn write_names(out: &mut [u8], at: usize, names: &[u32]) -> usize
    ensures { Wrote (spaced (map name_in names.now)) at out.old out.new result }
{
    let mut to = past(at, 0);
    for (i, w) in names.iter().enumerate() {
        let next = write_gap(out, to, i);
        to = write_name(out, next, *w / NAME_BASE, *w % NAME_BASE);
    }
    to
}

// A process's queue, oldest first. One function with `write_control` would take the pieces as a closure, and be no shorter than both.
pub fn write_queue(out: &mut [u8], at: usize, names: &[u32]) -> usize
    ensures { Wrote (queue_line names.now) at out.old out.new result }
{
    let to = write_bytes(out, at, &QUEUE);
    let end = write_names(out, to, names);
    write_line_feed(out, end)
}

// A process's control.
pub fn write_control(out: &mut [u8], at: usize, words: &[u32]) -> usize
    ensures { Wrote (words_line words.now) at out.old out.new result }
{
    let to = write_bytes(out, at, &WORDS);
    let end = write_words(out, to, words);
    write_line_feed(out, end)
}

// A process's place, how many entries it has, and the newest of them.
#[derive(Clone, Copy)]
pub struct Shown {
    pub place: u32,
    pub entries: u32,
    pub newest: Option<Kind>,
}

// The five lines of a process.
pub fn write_process(out: &mut [u8], at: usize, shown: Shown, names: &[u32], words: &[u32]) -> usize
    ensures { Wrote (process_text shown.place shown.entries shown.newest names.now words.now) at out.old out.new result }
{
    let a = write_number_line(out, at, &PID, shown.place);
    let b = write_number_line(out, a, &HISTORY, shown.entries);
    let c = write_newest(out, b, shown.newest);
    let d = write_queue(out, c, names);
    write_control(out, d, words)
}
