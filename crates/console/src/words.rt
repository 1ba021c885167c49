// Words read, eight hexadecimal digits each, and words of a store made others.
ghost use Rattle.std.specs.Prelude.{◌≤◌, length};

// How many digits a word has, and how many bytes it takes with the space that follows it.
const WORD_DIGITS: usize = 8;

pub const WORD_BYTES: usize = WORD_DIGITS + 1;

// The base of the digits, how many bits each has, and the number before `A`.
const BASE: u32 = 16;

const DIGIT_BITS: u32 = 4;

const NINE: u32 = 9;

// The value of a hexadecimal digit in upper case: the low four bits of `0` are 0, those of `A` are 1. Not `to_digit` of std: a byte that is no
// digit has a value too.
fn digit(b: u8) -> u32 {
    if b <= b'9' {
        return u32::from(b) % BASE;
    }
    (u32::from(b) + NINE) % BASE
}

// The word whose digits begin a text, as far as they reach.
fn word(text: &[u8]) -> u32 {
    text.iter()
        .take(WORD_DIGITS)
        .fold(0, |w, b| (w << DIGIT_BITS) | digit(*b))
}

// Words with single spaces between them, as many as there is room for; how many there are. A text of no bytes is one word of no digits, 0.
pub fn read_words(text: &[u8], words: &mut [u32]) -> usize
    ensures { result ≤ length words.old }
{
    if let Some(first) = words.first_mut() {
        *first = 0;
    }
    for (place, digits) in words.iter_mut().zip(text.chunks(WORD_BYTES)) {
        *place = word(digits);
    }
    words.len().min(text.len().div_ceil(WORD_BYTES).max(1))
}

// How many words a line that alters a store has: an index and a word.
const ALTERED: usize = 2;

// Makes one word of the store another, where it has one at the index.
pub fn alter_line(store: &mut [u32], text: &[u8]) {
    let mut words = [0u32; ALTERED];
    read_words(text, &mut words);
    let [index, word] = words;
    if let Some(place) = store.get_mut(index as usize) {
        *place = word;
    }
}
