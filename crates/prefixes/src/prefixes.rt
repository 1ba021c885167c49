// Prefixes: words that others begin with, one of them left out.
ghost use Rattle.std.specs.Prelude.{◌≡◌};
ghost use Rattle.prefixes.specs.Prefixes.{begins as begins_with, left_begins};

// Whether a list of words begins with another.
pub fn begins(front: &[u32], whole: &[u32]) -> bool
    ensures { result ≡ begins_with front.now whole.now }
{
    whole.starts_with(front)
}

// Whether a queue without the message at a place is a prefix of another; before the first rec the queue is empty.
pub fn left_begins(before: &[u32], taken: usize, after: &[u32]) -> bool
    ensures { result ≡ left_begins taken before.now after.now }
{
    if before.len() <= taken {
        return begins(before, after);
    }
    begins(&before[..taken], after) && begins(&before[taken + 1..], &after[taken..])
}
