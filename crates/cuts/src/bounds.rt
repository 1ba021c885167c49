// How many numbers a rollback goes by, at most.
use store::layout::{NAMES_ROOM, PLACES_ROOM};

// A place has two lines of events: its entries, and the deliveries to it.
const LINES_EACH: usize = 2;

pub const LINES: usize = LINES_EACH * PLACES_ROOM;

// Links are of two sorts: 01's list, and what undoing asks besides. There can be as many entries as names, and an entry has at most two
// links of a sort.
const SORTS: usize = 2;

const LINKS_EACH: usize = 2;

pub const LINKS: usize = SORTS * LINKS_EACH * NAMES_ROOM;

// An index of links has a slot for each entry that a place can have, for each line, and then a number for each link.
pub const SLOTS_EACH: usize = NAMES_ROOM / PLACES_ROOM;

pub const SLOTS: usize = LINES * SLOTS_EACH;

// One array for heads and nexts, since the memory is fixed and `Indexed` speaks of one list.
pub const INDEX_ROOM: usize = SLOTS + LINKS;

// What ends a chain of links; an `Option<u16>` would take twice the room, and `Indexed` speaks of numbers.
pub const NO_LINK: u16 = LINKS as u16;
