// Text commands read.
ghost use Rattle.std.specs.Prelude.{◌≡◌, MatchOption};
ghost use Rattle.std.proofs.Math.Option.{none, some};
ghost use Rattle.rules.specs.Line.{parse_line, number, of_byte, digits_say, after};
ghost use Rattle.parsing.specs.Requests.{number_said, ReadsPair, request_of};

use crate::lines::piece_end;
use text::keys::{BACK, COMMA, DELIVER, DIGIT_ZERO, ROLLBACK, SPAWN, STEP, UNDELIVER};

// The greatest number that a line may hold.
const MOST: u32 = 255;

// What a line asks for.
#[derive(Clone, Copy)]
pub enum Command {
    Step(u32),
    Spawn(u32, u32),
    Deliver(u32, u32),
    Back(u32),
    Undeliver(u32),
    Rollback(u32, u32),
}

// What follows a key, where a text begins with it.
pub fn after<'a>(text: &'a [u8], key: &[u8]) -> Option<&'a [u8]>
    ensures { MatchOption result (after key.now text.now ≡ none) (λ rest. after key.now text.now ≡ some rest.now) }
{
    text.strip_prefix(key)
}

// The digits of a number, which is refused as soon as it is too large. `parse` of std wants text, and takes a sign too.
pub fn read_digits(text: &[u8]) -> Option<u32>
    ensures { number_said result ≡ of_byte (digits_say 0 text.now) }
{
    let mut n: u32 = 0;
    for b in text {
        if !b.is_ascii_digit() {
            return None;
        }
        n = n * 10 + u32::from(*b - DIGIT_ZERO);
        if MOST < n {
            return None;
        }
    }
    Some(n)
}

// A number of 0..255 with no leading zeros.
pub fn read_number(text: &[u8]) -> Option<u32>
    ensures { number_said result ≡ number text.now }
{
    if text.is_empty() {
        return None;
    }
    if text.len() == 1 {
        return read_digits(text);
    }
    if text[0] == DIGIT_ZERO {
        return None;
    }
    read_digits(text)
}

// Two numbers with a comma between them.
pub fn read_pair(text: &[u8]) -> Option<(u32, u32)>
    ensures { ReadsPair text.now result }
{
    let middle = piece_end(text, 0, COMMA);
    if text.len() <= middle {
        return None;
    }
    let a = read_number(&text[..middle])?;
    let b = read_number(&text[middle + 1..])?;
    Some((a, b))
}

// The command of a line, for every text; none of a malformed one.
pub fn parse_line(text: &[u8]) -> Option<Command>
    ensures { request_of result ≡ parse_line text.now }
{
    if let Some(numbers) = after(text, &STEP) {
        return Some(Command::Step(read_number(numbers)?));
    }
    if let Some(numbers) = after(text, &SPAWN) {
        let (p, f) = read_pair(numbers)?;
        return Some(Command::Spawn(p, f));
    }
    if let Some(numbers) = after(text, &DELIVER) {
        let (s, k) = read_pair(numbers)?;
        return Some(Command::Deliver(s, k));
    }
    if let Some(numbers) = after(text, &BACK) {
        return Some(Command::Back(read_number(numbers)?));
    }
    if let Some(numbers) = after(text, &UNDELIVER) {
        return Some(Command::Undeliver(read_number(numbers)?));
    }
    let (p, t) = read_pair(after(text, &ROLLBACK)?)?;
    Some(Command::Rollback(p, t))
}
