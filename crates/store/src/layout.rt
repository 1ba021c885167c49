// The layout of the store: where its parts stand, and how large they can be.
use checks::module::LONGEST;

// The head of a store: P, H, W and the module's length; then the module's words; then a block for each place.
pub const HEAD_PLACES: usize = 0;

pub const HEAD_ENTRIES: usize = 1;

pub const HEAD_WORDS: usize = 2;

pub const HEAD_MODULE: usize = 3;

pub const HEAD: usize = 4;

pub const BLOCKS: usize = HEAD + LONGEST;

// The head of a slot: its kind, how many words its control has, the number that goes with its kind, how many messages its
// queue has; one word between and three behind are zeros. Then the control.
pub const SLOT_KIND: usize = 0;

pub const SLOT_WORDS: usize = 1;

pub const SLOT_NUMBER: usize = 2;

pub const SLOT_ZERO: usize = 3;

pub const SLOT_QUEUE: usize = 4;

pub const SLOT_ZEROS: usize = 5;

pub const SLOT_HEAD: usize = 8;

// The most that sizes allow, and the least words of an expression.
pub const MOST_PLACES: u32 = 16;

pub const MOST_ENTRIES: u32 = 64;

pub const LEAST_WORDS: u32 = 16;

pub const MOST_WORDS: u32 = 255;

// Room for a mark for each place, for a control, and for all the names that there can be.
pub const PLACES_ROOM: usize = MOST_PLACES as usize;

pub const CONTROL_ROOM: usize = MOST_WORDS as usize;

pub const NAMES_ROOM: usize = PLACES_ROOM * MOST_ENTRIES as usize;

// Room for a whole slot.
pub const SLOT_ROOM: usize = SLOT_HEAD + CONTROL_ROOM + NAMES_ROOM;

// The kinds of slots: free, an entry of each kind, the present of a process. Numbers and no enum: they are words of a store that C lends,
// where any number can stand, and callers of `enter` and `make` give a kind as such a word.
pub const FREE: u32 = 0;

pub const SEQ: u32 = 1;

pub const SEND: u32 = 2;

pub const REC: u32 = 3;

pub const SPAWN: u32 = 4;

pub const SELF: u32 = 5;

pub const CHECK: u32 = 6;

pub const LIVE: u32 = 7;
