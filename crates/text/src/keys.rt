// The fixed strings of commands and of the listing, each once.

// What begins a line of the answers and of the listing.
pub const ANSWER: [u8; 7] = *b"answer=";

pub const UNDONE: [u8; 7] = *b"undone=";

pub const PROCESSES: [u8; 10] = *b"processes=";

pub const PID: [u8; 4] = *b"pid=";

pub const HISTORY: [u8; 8] = *b"history=";

pub const NEWEST: [u8; 7] = *b"newest=";

pub const QUEUE: [u8; 6] = *b"queue=";

pub const WORDS: [u8; 6] = *b"words=";

pub const FLIGHT: [u8; 7] = *b"flight=";

// What begins a command.
pub const STEP: [u8; 5] = *b"step=";

pub const SPAWN: [u8; 6] = *b"spawn=";

pub const DELIVER: [u8; 8] = *b"deliver=";

pub const BACK: [u8; 5] = *b"back=";

pub const UNDELIVER: [u8; 10] = *b"undeliver=";

pub const ROLLBACK: [u8; 9] = *b"rollback=";

// The newest entry's kind, or that there is none.
pub const KIND_SEQ: [u8; 3] = *b"seq";

pub const KIND_SEND: [u8; 4] = *b"send";

pub const KIND_REC: [u8; 3] = *b"rec";

pub const KIND_SPAWN: [u8; 5] = *b"spawn";

pub const KIND_SELF: [u8; 4] = *b"self";

pub const KIND_CHECK: [u8; 5] = *b"check";

pub const KIND_NONE: [u8; 4] = *b"none";

// Single bytes.
pub const LINE_FEED: u8 = b'\n';

pub const SPACE: u8 = b' ';

pub const COMMA: u8 = b',';

pub const POINT: u8 = b'.';

pub const DIGIT_ZERO: u8 = b'0';

pub const DIGIT_NINE: u8 = b'9';
