// Words: the tags by their names, the parts of a word, and a word of its parts.
ghost use Rattle.std.specs.Prelude.{◌≡◌, ◌<◌};
ghost use Rattle.term.specs.Words.{word, tag_of, n_of, k_of};

// The tags: numbers, since a tag is what a word has of them, and the words are lent by C.
pub const VARIABLE: u32 = 1;

pub const ATOM: u32 = 2;

pub const INTEGER: u32 = 3;

pub const PID: u32 = 4;

pub const NIL: u32 = 5;

pub const CONS: u32 = 6;

pub const TUPLE: u32 = 7;

pub const CALL: u32 = 8;

pub const APPLY: u32 = 9;

pub const CASE: u32 = 10;

pub const LET: u32 = 11;

pub const RECEIVE: u32 = 12;

pub const SPAWN: u32 = 13;

pub const SEND: u32 = 14;

pub const SELF: u32 = 15;

pub const CHECK: u32 = 16;

pub const CLAUSE: u32 = 17;

pub const FUNCTION: u32 = 18;

// The word before an integer's two's complement.
pub const INTEGER_WORD: u32 = INTEGER * TAG_PLACE;

// How many variables and how many check numbers there are.
pub const VARIABLES: usize = 64;

pub const CHECK_NUMBERS: usize = 256;

// A word has k at the bottom, n above it and the tag on top: how many k and n there are, and what a tag counts for.
pub const K_RANGE: u32 = 65536;

const N_RANGE: u32 = 256;

const TAG_PLACE: u32 = N_RANGE * K_RANGE;

pub fn tag(w: u32) -> u32
    ensures { result ≡ tag_of w }
{
    w / TAG_PLACE
}

pub fn n(w: u32) -> u32
    ensures { result ≡ n_of w }
{
    w / K_RANGE % N_RANGE
}

pub fn k(w: u32) -> u32
    ensures { result ≡ k_of w }
{
    w % K_RANGE
}

// The word of parts that fit their places in it.
pub fn word_of(tag: u32, n: u32, k: u32) -> u32
    requires { (tag < 256) × (n < 256) × (k < 65536) }
    ensures { result ≡ word tag n k }
{
    tag * TAG_PLACE + n * K_RANGE + k
}

// A message's name in one word is its sender times this, and its count.
pub const NAME_BASE: u32 = 65536;
