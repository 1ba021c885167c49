// Bytes and numbers printed.
ghost use Rattle.std.specs.Prelude.{◌≤◌, length, take, OnOk};
ghost use Rattle.std.specs.Io.KnownBytes.{Appends};

use std::io::{Result, Write};
use text::replies::{REPLY_ROOM, write_number_line};

// Prints the first bytes of an output. After an error some of them may have been printed: of the writer nothing is said then, as `write_all` of
// std says nothing of it. What is printed is only read, so an error leaves all but the writer as it was.
pub fn print<W: Write>(to: &mut W, out: &[u8], end: usize) -> Result<()>
    requires { end ≤ length out.now }
    ensures { OnOk result (Appends (W.contents to.old) (W.contents to.new) (take end out.now)) }
{
    to.write_all(&out[..end])
}

// Prints a key and a number, which take no more room than a reply.
pub fn print_number<W: Write>(to: &mut W, key: &[u8], n: u32) -> Result<()> {
    let mut out = [0u8; REPLY_ROOM];
    let end = write_number_line(&mut out, 0, key, n);
    if end <= REPLY_ROOM {
        print(to, &out, end)?;
    }
    Ok(())
}
