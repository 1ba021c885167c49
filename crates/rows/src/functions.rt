// The functions of a module by their numbers.
ghost use Rattle.std.specs.Prelude.{◌≡◌};
ghost use Rattle.term.specs.Places.{start_from};

use crate::terms::skip;

// Where the function of a number begins; the row's end where there are fewer.
pub fn function_start(row: &[u32], number: usize) -> usize
    ensures { result ≡ start_from row.now 0 number }
{
    let mut at = 0;
    for _ in 0..number {
        if row.len() <= at {
            break;
        }
        at = skip(row, at, 1);
    }
    at
}
