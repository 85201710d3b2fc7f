// `compat A B`, the question on two sets: both are lent their places of the tables. Relies on `compatible`,
// `script` and `replies`, and on the module for sets.
use crate::places::Tables;
use crate::sets::{Place, Sets};
use std::io;
use std::io::Stdout;
use types::Refusal;

// Answers whether the sets that a line names are compatible, if it asks that: by `badcall` where a word is out of form.
// Stays: the four come from `asking::answer` alone, which uses each of them too: a record would be made for this one
// call, and its parts be named in both. `calls::answer` has the tables to be changed, so it can't take the same record.
pub(crate) fn answer(
    out: Stdout,
    line: &[u8],
    all: Sets,
    tables: &[Tables; 4],
) -> Option<io::Result<()>> {
    if !script::has_form(line, b"compat A B") {
        return None;
    }
    let written = match compare(line, all, tables) {
        Some(res) => replies::answer(out, res),
        None => replies::bad_call(out),
    };
    Some(written)
}

// Whether the sets of a line are compatible. A word that names no set, and a set that was never opened, is none.
fn compare(line: &[u8], all: Sets, tables: &[Tables; 4]) -> Option<Result<bool, Refusal>> {
    let a = all.asked(Place::read(line, 1)?, tables)?;
    let b = all.asked(Place::read(line, 2)?, tables)?;
    Some(compatible::files_compatible(a.fs, a.rows, a.dirs, a.text, b.fs, b.rows, b.dirs, b.text))
}
