// The answer to a line that is a question: the module that has the line's form gives it. Relies on the modules of the
// questions.
use crate::no_set::on_no_set;
use crate::{Lent, file_paths, file_rows, layouts, renamed_files, whole_set};
use renames::LentRenames;
use std::io;
use std::io::Stdout;
use tables::FileStorage;

// A set and its renames, as a question is lent them: their records, their parts of the tables, and how many places an
// answer has.
#[derive(Clone, Copy)]
pub struct Asked<'a> {
    pub fs: FileStorage,
    pub rows: &'a [u64],
    pub roots: &'a [u8],
    pub firsts: &'a [u16],
    pub dirs: &'a [u64],
    pub text: &'a [u8],
    pub names: LentRenames<'a>,
    pub lent: Lent,
}

// A question on a set: where its answer is written, its line, and the set.
#[derive(Clone, Copy)]
pub(crate) struct Question<'a> {
    pub out: Stdout,
    pub line: &'a [u8],
    pub set: Asked<'a>,
}

// Answers a question on a set, or on none. A module gives nothing where a line has none of its forms, or has one of
// them but a word out of form; no two forms have one name, so such a line is no call in the end.
pub fn on_set(out: Stdout, line: &[u8], set: Asked<'_>) -> io::Result<()> {
    let question = Question { out, line, set };
    whole_set::answer(question)
        .or_else(|| file_rows::answer(question))
        .or_else(|| layouts::answer(question))
        .or_else(|| file_paths::answer(question))
        .or_else(|| renamed_files::answer(question))
        .unwrap_or_else(|| on_no_set(out, line))
}
