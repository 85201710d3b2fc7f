// The calls that change the set that is spoken of, and of these the additions and trims. The set's tables are handed on
// whole, and the functions that call the library lend it the set's places of them. Relies on `storage` and `trim`, on
// addition.rt for the words of an addition, and on cleanings.rt, renaming.rt and importing.rt.
use crate::input::ROOM;
use crate::places::first_mut;
use crate::sets::{Call, Made, Set};
use crate::{addition, cleanings, importing, renaming};

// Makes the change of a set that a line says, if it says one.
pub(crate) fn make(call: Call<'_>) -> Option<Made> {
    let line = call.line;
    if script::has_form(line, b"add NAME PATH SIZE FLAGS MTIME LINK ROOT") {
        add(call)
    } else if script::has_form(line, b"trim") {
        Some(trim(call))
    } else if script::has_form(line, b"clean") {
        Some(cleanings::clean(call))
    } else if script::has_form(line, b"rename I :NEW") {
        renaming::rename(call)
    } else if script::has_form(line, b"import I :N ..") {
        importing::import(call)
    } else {
        None
    }
}

// `add NAME PATH SIZE FLAGS MTIME LINK ROOT`.
fn add(call: Call<'_>) -> Option<Made> {
    let Call { line, set, tables } = call;
    let mut texts = [0u8; ROOM];
    let words = addition::read(line, &mut texts)?;
    let counts = set.counts;
    let res = storage::add_file(
        set.fs,
        first_mut(&mut tables.rows, counts.rows),
        first_mut(&mut tables.roots, counts.roots),
        first_mut(&mut tables.firsts, counts.firsts),
        first_mut(&mut tables.dirs, counts.dirs),
        first_mut(&mut tables.text, counts.text),
        words.file,
        words.name,
        words.path,
        words.link,
    );
    Some(Made::from(res.map(|fs| Set { fs, ..set })))
}

// `trim`.
fn trim(call: Call<'_>) -> Made {
    let Call { set, tables, .. } = call;
    let counts = set.counts;
    let res = trim::remove_tail_padding(
        set.fs,
        first_mut(&mut tables.rows, counts.rows),
        first_mut(&mut tables.roots, counts.roots),
        first_mut(&mut tables.dirs, counts.dirs),
        first_mut(&mut tables.text, counts.text),
    );
    Made::from(res.map(|fs| Set { fs, ..set }))
}
