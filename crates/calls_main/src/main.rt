// Answers a script of calls on standard input over the port's libraries, a line of output for each
// call, in the form that the driver over the Rust speaks too. What it answers is the libraries' to
// promise; proved here is that the program is safe and ends.
#![tactic(auto)]

mod addition;
mod asking;
mod calls;
mod changes;
mod cleanings;
mod compat;
mod importing;
mod input;
mod opening;
mod places;
mod renaming;
mod sets;

use crate::input::{Input, ROOM};
use crate::places::Tables;
use crate::sets::Sets;
use std::io;

// Answers line by line. Each of the four sets has tables of its own. A proved loop has to end, and nothing
// says that the input does, so the loop takes as many turns at most as no run uses up. A read or a write that fails
// ends the program with its error.
fn main(rt: HostRuntime) -> io::Result<()> {
    let out = rt.stdout();
    let mut input = Input::new(rt.stdin());
    let mut line = [0u8; ROOM];
    let mut tables = [Tables::new(), Tables::new(), Tables::new(), Tables::new()];
    let mut all = Sets::new();
    // Stays: a `loop` has to be proved to end, and nothing says how long the input is, so no measure goes down.
    for _ in 0..u64::MAX {
        let Some(length) = input.next_line(&mut line)? else {
            break;
        };
        let made = calls::answer(out, &line, length, all, &mut tables)?;
        all = calls::noted(out, made, all)?;
    }
    Ok(())
}
