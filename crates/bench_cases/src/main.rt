// Runs a script against what it must print: the cases of the specification; docs/TOUR.md, a wrong verdict and the way back to the delivery that
// caused it; and a corpus of random modules and commands, against what a model of the specification prints.
#![tactic(auto)]

use input::stream::{Lines, read_all};
use scripts::script::LONGEST_LINE;
use std::io::{Result, writer};

// How many words its store has.
const STORE: usize = 128 * 1024;

fn main(rt: HostRuntime) -> Result<()> {
    let mut store = [0u32; STORE];
    let mut line = [0u8; LONGEST_LINE];
    read_all(
        &mut rt.stdin(),
        &mut writer(&rt),
        Lines::Script,
        &mut store,
        &mut line,
    )?;
    Ok(())
}
