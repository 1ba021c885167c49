// Modules: the check that load makes.
ghost use Rattle.std.specs.Prelude.{◌≡◌, ◌≤◌, length};
ghost use Rattle.lists.specs.Lists.{up_to};
ghost use Rattle.term.specs.Module.{check_module};
ghost use Rattle.checks.specs.Walking.{Marks, variables};
ghost use Rattle.checks.specs.Checking.{ReadFunctions, KeepsFunctions, bad_of};

use crate::binding::{Subject, keep};
use rows::terms::{Ahead, BadWord};
use rows::words::{CHECK_NUMBERS, VARIABLES, n};
use shape::shape::{FUNCTION_SPOT, read};

// The most words that a module has.
pub const LONGEST: usize = 512;

// The scope of a function's parameters: variables 0, 1, .. below their count.
fn parameters(count: usize) -> [bool; VARIABLES]
    ensures { Marks variables result (up_to count) }
{
    let mut scope = [false; VARIABLES];
    scope[..count.min(VARIABLES)].fill(true);
    scope
}

// Reads a module's functions for shape, notes their parameter counts, and says how many they are.
pub fn read_functions(row: &[u32], counts: &mut [u32]) -> Result<usize, BadWord>
    requires { length row.now ≤ length counts.old }
    ensures { ReadFunctions row.now counts.new result }
{
    if row.len() == 0 {
        return Err(BadWord(0));
    }
    let mut at = 0;
    let mut number = 0;
    while at < row.len() {
        let end = read(row, 0, at, FUNCTION_SPOT, 1)?;
        counts[number] = n(row[at]);
        number += 1;
        at = end;
    }
    Ok(number)
}

// Goes through the functions of a module for the rules.
fn keep_functions(row: &[u32], arities: &[u32]) -> Result<(), BadWord>
    ensures { KeepsFunctions row.now arities.now result }
{
    let subject = Subject {
        row,
        arities,
        unique: true,
    };
    let mut checks = [false; CHECK_NUMBERS];
    let mut at = 0;
    while at < row.len() {
        let scope = parameters(n(row[at]) as usize);
        let body = Ahead {
            at: at + 1,
            owed: 1,
        };
        // No `?`: the position that goes out stands here, where an edit can plant another.
        match keep(&subject, body, &scope, &mut checks) {
            Ok(past) => at = past,
            Err(bad) => return Err(bad),
        }
    }
    Ok(())
}

// The module check: 512 for a longer module, else the first failing word or the length, else the least breaking word.
pub fn check_module(row: &[u32]) -> Result<(), BadWord>
    ensures { bad_of result ≡ check_module row.now }
{
    if LONGEST < row.len() {
        return Err(BadWord(LONGEST));
    }
    let mut counts = [0u32; LONGEST];
    let m = read_functions(row, &mut counts)?;
    if counts[0] != 0 {
        return Err(BadWord(0));
    }
    keep_functions(row, &counts[..m])
}
