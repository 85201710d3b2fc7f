// Answers of many values that are put together here: the slices of a block, first files, directories and renames.
// Relies on reply.rt and values.rt, on `tables` for texts, on `rules` for the count of pieces, and on `answers` and
// `renames` for the values that a table holds.
use crate::reply::{Reply, refused};
use crate::values::{ByteString, Shown, value};
use renames::LentRenames;
use std::io;
use std::io::{Stdout, Write};
use tables::FileStorage;
use types::{FileSlice, Refusal};

// The number of slices of a block, and the slices, which stand at the start of a table: `file:offset:size`.
pub fn slices(out: Stdout, res: Result<usize, Refusal>, table: &[FileSlice]) -> io::Result<()> {
    let n = match res {
        Ok(n) => n,
        Err(refusal) => return refused(out, refusal),
    };
    let mut reply = Reply::ok(out)?;
    n.put(&mut reply)?;
    for slice in table.iter().take(n) {
        let file = slice.file_index.0;
        let offset = slice.offset;
        let size = slice.size;
        write!(reply, " {file}:{offset}:{size}")?;
    }
    reply.end()
}

// The file in which each piece begins, of a set that keeps a table of them; else that there is none.
pub fn first_files(mut out: Stdout, fs: FileStorage, firsts: &[u16]) -> io::Result<()> {
    if !fs.indexed {
        return out.write_all(b"ok -\n");
    }
    value(
        out,
        lists::part(firsts, 0, rules::count_pieces(fs) as usize),
    )
}

// The texts of all directories of a set; a refusal, which no directory of a set gives, is left out.
pub fn directories(out: Stdout, fs: FileStorage, dirs: &[u64], text: &[u8]) -> io::Result<()> {
    let n = match answers::num_paths(fs) {
        Ok(n) => usize::try_from(n).unwrap_or(0),
        Err(refusal) => return refused(out, refusal),
    };
    let mut reply = Reply::ok(out)?;
    for i in 0..n {
        if let Ok(place) = answers::path_at(fs, dirs, text, i) {
            ByteString(tables::text_at(text, place)).put(&mut reply)?;
        }
    }
    reply.end()
}

// All renames of a set, as pairs of number and name; a refusal, which no rename of a set gives, is left out.
pub fn export(out: Stdout, names: LentRenames<'_>) -> io::Result<()> {
    let LentRenames {
        renames,
        entries,
        text,
    } = names;
    let mut reply = Reply::ok(out)?;
    for i in 0..renames.num_renames {
        if let Ok(rename) = renames::export_filename(renames, entries, text, i) {
            (
                rename.file_index,
                ByteString(tables::text_at(text, rename.name)),
            )
                .put(&mut reply)?;
        }
    }
    reply.end()
}
