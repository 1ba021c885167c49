// Bytes written into a lent output at a position; past its end nothing is written, and the position still moves on. `Display` of std writes into no
// such output, so numbers are written digit by digit.
ghost use Rattle.std.specs.Prelude.{◌≡◌, [], ◌∷◌, map, ◌+◌, ◌<◌};
ghost use Rattle.rules.specs.Text.{line_feed, decimal, hex, hex_in, hex_digit, spaced};
ghost use Rattle.rules.specs.Listing.{name_text};
ghost use Rattle.text.specs.Written.{Wrote, onward, gap};

use crate::keys::{DIGIT_ZERO, LINE_FEED, POINT, SPACE};

// A position that no slice of bytes reaches: positions stop there.
const FAR: usize = 9223372036854775808;

// The digit of ten, in upper case.
const HEX_TEN: u8 = b'A';

// How many hexadecimal digits a word has.
const WORD_DIGITS: u32 = 8;

// The position after n bytes more.
pub fn past(at: usize, n: usize) -> usize
    ensures { result ≡ onward (at + n) }
{
    at.saturating_add(n).min(FAR)
}

// One byte.
pub fn write_byte(out: &mut [u8], at: usize, b: u8) -> usize
    ensures { Wrote (b ∷ []) at out.old out.new result }
{
    if out.len() <= at {
        return past(at, 1);
    }
    out[at] = b;
    at + 1
}

// A row of bytes, as a key.
pub fn write_bytes(out: &mut [u8], at: usize, bytes: &[u8]) -> usize
    ensures { Wrote bytes.now at out.old out.new result }
{
    let mut to = past(at, 0);
    for b in bytes {
        to = write_byte(out, to, *b);
    }
    to
}

// A number in decimal.
pub fn write_decimal(out: &mut [u8], at: usize, n: u32) -> usize
    ensures { Wrote (decimal n) at out.old out.new result }
{
    if n < 10 {
        return write_byte(out, at, DIGIT_ZERO + n as u8);
    }
    let to = write_decimal(out, at, n / 10);
    write_byte(out, to, DIGIT_ZERO + (n % 10) as u8)
}

// A hexadecimal digit, in upper case.
fn hex_digit(d: u32) -> u8
    requires { d < 16 }
    ensures { result ≡ hex_digit d }
{
    if d < 10 {
        return DIGIT_ZERO + d as u8;
    }
    HEX_TEN + (d - 10) as u8
}

// The last so many hexadecimal digits of a word.
pub fn write_digits(out: &mut [u8], at: usize, digits: u32, w: u32) -> usize
    ensures { Wrote (hex_in digits w) at out.old out.new result }
{
    if digits == 0 {
        return past(at, 0);
    }
    let to = write_digits(out, at, digits - 1, w / 16);
    write_byte(out, to, hex_digit(w % 16))
}

// A word: eight upper-case hexadecimal digits.
pub fn write_hex(out: &mut [u8], at: usize, w: u32) -> usize
    ensures { Wrote (hex w) at out.old out.new result }
{
    write_digits(out, at, WORD_DIGITS, w)
}

// A message's name.
pub fn write_name(out: &mut [u8], at: usize, sender: u32, count: u32) -> usize
    ensures { Wrote (name_text sender count) at out.old out.new result }
{
    let to = write_decimal(out, at, sender);
    let next = write_byte(out, to, POINT);
    write_decimal(out, next, count)
}

// What stands before piece i of a row split by single spaces: nothing before the first, a space before each other.
pub fn write_gap(out: &mut [u8], at: usize, i: usize) -> usize
    ensures { Wrote (gap i) at out.old out.new result }
{
    if i == 0 {
        return past(at, 0);
    }
    write_byte(out, at, SPACE)
}

// Words split by single spaces.
pub fn write_words(out: &mut [u8], at: usize, words: &[u32]) -> usize
    ensures { Wrote (spaced (map hex words.now)) at out.old out.new result }
{
    let mut to = past(at, 0);
    for (i, w) in words.iter().enumerate() {
        let next = write_gap(out, to, i);
        to = write_hex(out, next, *w);
    }
    to
}

// The end of a line.
pub fn write_line_feed(out: &mut [u8], at: usize) -> usize
    ensures { Wrote (line_feed ∷ []) at out.old out.new result }
{
    write_byte(out, at, LINE_FEED)
}
