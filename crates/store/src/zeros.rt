// Words that hold nothing are zeros.
ghost use Rattle.lists.specs.Lists.{All};
ghost use Rattle.lists.specs.Decides.{Decides};
ghost use Rattle.store.specs.Formed.{IsZero};

// Whether all words are zeros. No turn leaves the loop, so that it can be compiled to compare several words at once.
pub fn zeros(part: &[u32]) -> bool
    ensures { Decides (All IsZero part.now) result }
{
    let mut all = true;
    for word in part {
        if *word != 0 {
            all = false;
        }
    }
    all
}
