// Events: each stands on one of the two lines of a place.
ghost use Rattle.std.specs.Prelude.{◌≡◌, ◌<◌, ◌/◌, ◌%◌, eqb};
ghost use Rattle.rules.specs.Depends.{entries_of, deliveries_to};
ghost use Rattle.cuts.specs.Bounds.{most_places};
ghost use Rattle.cuts.specs.Links.{line_number};

// Event `index` of line `line`.
#[derive(Clone, Copy, Default, PartialEq, Eq)]
pub struct Event {
    pub line: usize,
    pub index: usize,
}

// The line of a place's entries.
pub fn entries_line(p: usize) -> usize
    requires { p < most_places }
    ensures { result ≡ line_number (entries_of p) }
{
    2 * p
}

// The line of the deliveries to a place.
pub fn deliveries_line(p: usize) -> usize
    requires { p < most_places }
    ensures { result ≡ line_number (deliveries_to p) }
{
    2 * p + 1
}

// Entry i of p.
pub fn entry(p: usize, i: usize) -> Event
    requires { p < most_places }
    ensures { result ≡ (record { line = line_number (entries_of p); index = i }) }
{
    Event {
        line: entries_line(p),
        index: i,
    }
}

// Arrival j at p.
pub fn delivery(p: usize, j: usize) -> Event
    requires { p < most_places }
    ensures { result ≡ (record { line = line_number (deliveries_to p); index = j }) }
{
    Event {
        line: deliveries_line(p),
        index: j,
    }
}

// Whether a line is one of entries.
pub fn has_entries(line: usize) -> bool
    ensures { result ≡ eqb (line % 2) 0 }
{
    line % 2 == 0
}

// The place of a line.
pub fn place_of(line: usize) -> usize
    ensures { result ≡ line / 2 }
{
    line / 2
}
