// Questions of a script of calls: what only reads, on one set and its renames or on no set. Each is answered by a line
// of standard output, and what is no question by `badcall`. So only whether the line was written is returned, and
// nothing lent is changed: there is nothing to promise but that the functions are safe and end. Relies on the
// libraries' answers, on `script` and on `replies`.
#![tactic(auto)]

mod answer;
mod file_paths;
mod file_rows;
mod layouts;
mod no_set;
mod renamed_files;
mod whole_set;
mod words;

pub use answer::{Asked, on_set};
pub use no_set::on_no_set;
use std::io;
use std::io::Stdout;
use types::Refusal;

// How many places the tables have that a question's answer is lent: bytes for a composed text, slices, and hashes.
#[derive(Clone, Copy)]
pub struct Lent {
    pub output: usize,
    pub slices: usize,
    pub hashes: usize,
}

// The most bytes that a composed text has.
// Stays: there is no heap, so the buffer of a text has the most bytes that it can need.
pub(crate) const ROOM: usize = 262144;

// Answers with the text that `write` composes in a buffer of so many bytes, whose length it gives.
pub(crate) fn compose<F: FnOnce(&mut [u8]) -> Result<usize, Refusal>>(
    out: Stdout,
    room: usize,
    write: F,
) -> io::Result<()>
    requires { F.IsAlwaysCallable write }
{
    let mut joined = [0u8; ROOM];
    let res = write(first(&mut joined, room));
    replies::composed(out, res, &joined)
}

// The first n places of a table, or as many as there are.
// Stays: it makes the slice that a library is lent; n comes from the script, and may pass the table's end.
pub(crate) fn first<T>(table: &mut [T], n: usize) -> &mut [T] {
    let to = n.min(table.len());
    &mut table[..to]
}
