// Questions: the set that is spoken of is lent its places of every table, and `questions` answers. Relies on it, on
// sets.rt for the record that it takes, and on compat.rt for the question on two sets.
use crate::compat;
use crate::places::Tables;
use crate::sets::Sets;
use std::io;
use std::io::Stdout;

// Answers a question; a line that is none is no call.
pub(crate) fn answer(out: Stdout, line: &[u8], all: Sets, tables: &[Tables; 4]) -> io::Result<()> {
    if let Some(written) = compat::answer(out, line, all, tables) {
        return written;
    }
    match all.asked(all.at, tables) {
        Some(asked) => questions::on_set(out, line, asked),
        None => questions::on_no_set(out, line),
    }
}
