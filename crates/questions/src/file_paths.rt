// Questions on whole paths and their hashes. Relies on `names` and `hashes`, on `script` and on `replies`.
use crate::answer::Question;
use crate::words::{BUFFER, file_and_string};
use crate::{compose, first};
use std::io;

// The most hashes of paths that a set has: no more than directories and bytes of text.
// Stays: there is no heap, so the table of an answer has the most places that it can need.
const HASHES: usize = 262400;

// Answers a line that has one of this module's forms.
pub(crate) fn answer(question: Question<'_>) -> Option<io::Result<()>> {
    let line = question.line;
    if script::has_form(line, b"file_path I :SAVE") {
        file_path(question)
    } else if script::has_form(line, b"file_path_hash I :SAVE") {
        file_path_hash(question)
    } else if script::has_form(line, b"all_path_hashes") {
        Some(all_path_hashes(question))
    } else {
        None
    }
}

// `file_path I :SAVE`.
fn file_path(question: Question<'_>) -> Option<io::Result<()>> {
    let Question { out, line, set } = question;
    let mut buffer = [0u8; BUFFER];
    let (index, save) = file_and_string(line, &mut buffer)?;
    Some(compose(out, set.lent.output, |target| {
        names::file_path(set.fs, set.rows, set.dirs, set.text, index, save, target)
    }))
}

// `file_path_hash I :SAVE`.
fn file_path_hash(question: Question<'_>) -> Option<io::Result<()>> {
    let Question { out, line, set } = question;
    let mut buffer = [0u8; BUFFER];
    let (index, save) = file_and_string(line, &mut buffer)?;
    let hash = names::file_path_hash(set.fs, set.rows, set.dirs, set.text, index, save);
    Some(replies::answer(out, hash))
}

// `all_path_hashes`.
fn all_path_hashes(question: Question<'_>) -> io::Result<()> {
    let Question { out, set, .. } = question;
    let mut hashes = [0u32; HASHES];
    let target = first(&mut hashes, set.lent.hashes);
    let res = hashes::all_path_hashes(set.fs, set.dirs, set.text, target);
    replies::answer(out, res.map(|n| lists::part(&hashes, 0, n)))
}
