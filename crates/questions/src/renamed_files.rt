// Questions on a set through its renames, and the export of these. Relies on `renamed`, on `tables` for the bytes of a
// name, on `script` and on `replies`.
use crate::answer::{Asked, Question};
use crate::compose;
use crate::words::{BUFFER, file, file_and_string};
use renamed::FileName;
use replies::ByteString;
use std::io;

// Answers a line that has one of this module's forms.
pub(crate) fn answer(question: Question<'_>) -> Option<io::Result<()>> {
    let Question { out, line, set } = question;
    if script::has_form(line, b"renamed_name I") {
        name(question)
    } else if script::has_form(line, b"renamed_absolute I") {
        absolute(question)
    } else if script::has_form(line, b"renamed_path I :SAVE") {
        path(question)
    } else if script::has_form(line, b"export") {
        Some(replies::export(out, set.names))
    } else {
        None
    }
}

// `renamed_name I`.
fn name(question: Question<'_>) -> Option<io::Result<()>> {
    let Question { out, line, set } = question;
    let index = file(line)?;
    let names = set.names;
    let name = renamed::file_name(
        set.fs,
        set.rows,
        set.text,
        names.renames,
        names.entries,
        names.text,
        index,
    );
    Some(replies::answer(out, name.map(|found| ByteString(bytes_of(set, found)))))
}

// The bytes of a name.
fn bytes_of<'a>(set: Asked<'a>, name: FileName) -> &'a [u8] {
    match name {
        FileName::InSet(place) => tables::text_at(set.text, place),
        FileName::InRenames(place) => tables::text_at(set.names.text, place),
    }
}

// `renamed_absolute I`.
fn absolute(question: Question<'_>) -> Option<io::Result<()>> {
    let Question { out, line, set } = question;
    let index = file(line)?;
    let names = set.names;
    let is_absolute = renamed::file_absolute_path(
        set.fs,
        set.rows,
        names.renames,
        names.entries,
        names.text,
        index,
    );
    Some(replies::answer(out, is_absolute))
}

// `renamed_path I :SAVE`.
fn path(question: Question<'_>) -> Option<io::Result<()>> {
    let Question { out, line, set } = question;
    let mut buffer = [0u8; BUFFER];
    let (index, save) = file_and_string(line, &mut buffer)?;
    Some(compose(out, set.lent.output, |target| {
        renamed::file_path(
            set.fs,
            set.rows,
            set.dirs,
            set.text,
            set.names.renames,
            set.names.entries,
            set.names.text,
            index,
            save,
            target,
        )
    }))
}
