// Questions on what a file's row holds. Relies on `answers`, on `script` and on `replies`.
use crate::answer::Question;
use crate::{compose, words};
use std::io;
use types::FileIndex;

// Answers a line that has one of this module's forms.
pub(crate) fn answer(question: Question<'_>) -> Option<io::Result<()>> {
    let index = words::file(question.line)?;
    on_row(question, index).or_else(|| on_text(question, index))
}

// Answers a question on the numbers of a row.
fn on_row(question: Question<'_>, index: FileIndex) -> Option<io::Result<()>> {
    let Question { out, line, set } = question;
    let fs = set.fs;
    let rows = set.rows;
    let written = if script::has_form(line, b"file_size I") {
        replies::answer(out, answers::file_size(fs, rows, index))
    } else if script::has_form(line, b"file_offset I") {
        replies::answer(out, answers::file_offset(fs, rows, index))
    } else if script::has_form(line, b"pad_file_at I") {
        replies::answer(out, answers::pad_file_at(fs, rows, index))
    } else if script::has_form(line, b"file_flags I") {
        replies::answer(out, answers::file_flags(fs, rows, index))
    } else if script::has_form(line, b"mtime I") {
        replies::answer(out, answers::mtime(fs, rows, index))
    } else if script::has_form(line, b"file_absolute_path I") {
        replies::answer(out, answers::file_absolute_path(fs, rows, index))
    } else if script::has_form(line, b"root I") {
        replies::answer(out, answers::root(fs, rows, set.roots, index))
    } else {
        return None;
    };
    Some(written)
}

// Answers a question on the texts of a row.
fn on_text(question: Question<'_>, index: FileIndex) -> Option<io::Result<()>> {
    let Question { out, line, set } = question;
    let fs = set.fs;
    let rows = set.rows;
    let text = set.text;
    let written = if script::has_form(line, b"file_name I") {
        replies::text(out, answers::file_name(fs, rows, text, index), text)
    } else if script::has_form(line, b"internal_symlink I") {
        replies::text(out, answers::internal_symlink(fs, rows, text, index), text)
    } else if script::has_form(line, b"internal_file_path I") {
        internal_file_path(question, index)
    } else if script::has_form(line, b"symlink I") {
        symlink(question, index)
    } else {
        return None;
    };
    Some(written)
}

// `internal_file_path I`.
fn internal_file_path(question: Question<'_>, index: FileIndex) -> io::Result<()> {
    let Question { out, set, .. } = question;
    compose(out, set.lent.output, |target| {
        answers::internal_file_path(set.fs, set.rows, set.dirs, set.text, index, target)
    })
}

// `symlink I`.
fn symlink(question: Question<'_>, index: FileIndex) -> io::Result<()> {
    let Question { out, set, .. } = question;
    compose(out, set.lent.output, |target| {
        answers::symlink(set.fs, set.rows, set.text, index, target)
    })
}
