// Controls: closed, well shaped, keeping the rules.
ghost use Rattle.std.specs.Prelude.{◌≡◌};
ghost use Rattle.term.specs.Control.{good_control};

use crate::binding::{Subject, keep};
use rows::terms::Ahead;
use rows::words::{CHECK_NUMBERS, VARIABLES};
use shape::shape::{EXPRESSION, read};

// Whether a row is a good control, among so many places, for functions with these parameter counts.
pub fn check_control(row: &[u32], places: u32, arities: &[u32]) -> bool
    ensures { result ≡ good_control places arities.now row.now }
{
    let Ok(a) = read(row, places, 0, EXPRESSION, 1) else {
        return false;
    };
    if a < row.len() {
        return false;
    }
    let mut checks = [false; CHECK_NUMBERS];
    let scope = [false; VARIABLES];
    let subject = Subject {
        row,
        arities,
        unique: false,
    };
    let whole = Ahead { at: 0, owed: 1 };
    keep(&subject, whole, &scope, &mut checks).is_ok()
}
