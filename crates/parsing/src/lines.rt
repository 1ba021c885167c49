// Text split into pieces by a separator.
ghost use Rattle.std.specs.Prelude.{◌≡◌};
ghost use Rattle.parsing.specs.Pieces.{piece_end};

// Where the piece that begins at `at` ends: at the next separator, or at the end of the text.
pub fn piece_end(text: &[u8], at: usize, separator: u8) -> usize
    ensures { result ≡ piece_end separator text.now at }
{
    for i in at..text.len() {
        if text[i] == separator {
            return i;
        }
    }
    text.len()
}
