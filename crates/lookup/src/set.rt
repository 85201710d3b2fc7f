// The set that the lent tables hold: what a row says of a link and of a file's path, and scans over all directories and
// files. They rely on parts.rt, on the total accessors of `tables` and on proofs/Rows.antt and
// proofs/Last.antt.
ghost use Rattle.std.specs.Prelude.{◌≡◌, cond, []};
ghost use Rattle.lists.specs.Lists.{equal};
ghost use Rattle.tables.specs.Span.{text_at};
ghost use Rattle.tables.specs.Rows.{row_at, dir_at, has, link_held_bit};
ghost use Rattle.tables.specs.Model.{internal_path};
ghost use Rattle.lookup.specs.Lookup.{covers, ends_with, is_directory, file_at, is_flagged};
ghost use Rattle.lookup.specs.Lookup.{files_in, dirs_in, seen_as};

use crate::parts::{ends_with, is_covered, joins_to};
use tables::{FileStorage, Row};

// What stands at a path: nothing, a file that is no flagged link, or a flagged link.
#[derive(Clone, Copy, PartialEq, Eq)]
pub enum Seen {
    Nothing,
    RegularFile,
    FlaggedLink,
}

// Whether flags are those of a flagged link: the flag is set, and a link text is held.
pub fn is_flagged(flags: u64) -> bool
    ensures { result ≡ is_flagged flags }
{
    tables::is_symlink(flags) && tables::holds_link(flags)
}

// Whether file i is a flagged link.
pub fn is_link(rows: &[u64], i: usize) -> bool
    ensures { result ≡ is_flagged (row_at rows.now i).flags }
{
    is_flagged(tables::flags_at(rows, i))
}

// The link text of the file with that row, nothing where none is held.
pub fn link_text(text: &[u8], row: Row) -> &[u8]
    ensures { result.now ≡ cond (has row.flags link_held_bit) (text_at text.now row.link) [] }
{
    tables::text_at(text, tables::link_span(row))
}

// Whether p ends with the name of file i. It is taken into `own_is`, and with that into the scans: by it they pass most
// files.
#[inline(always)]
pub fn ends_with_name(rows: &[u64], text: &[u8], i: usize, p: &[u8]) -> bool
    ensures { result ≡ ends_with (text_at text.now (row_at rows.now i).name) p.now }
{
    ends_with(tables::text_at(text, tables::row_at(rows, i).name), p)
}

// Whether the internal path of the file with that row is p. It is a call of its own, since few files of a scan need it.
#[inline(never)]
fn row_joins_to(dirs: &[u64], text: &[u8], row: Row, p: &[u8]) -> bool
    ensures { result ≡ equal (internal_path dirs.now text.now row) p.now }
{
    joins_to(
        tables::directory_of(dirs, text, row),
        tables::text_at(text, row.name),
        p,
    )
}

// Whether the internal path of file i is p: its name first, so that a scan passes most files by that.
// Stays: public functions are lent each table by itself, as most of them read only some (docs/DECISIONS.md), here and
// below.
#[inline(always)]
pub fn own_is(rows: &[u64], dirs: &[u64], text: &[u8], i: usize, p: &[u8]) -> bool
    ensures { result ≡ equal (internal_path dirs.now text.now (row_at rows.now i)) p.now }
{
    ends_with_name(rows, text, i, p) && row_joins_to(dirs, text, tables::row_at(rows, i), p)
}

// Whether directory d covers p: it is p, or begins with p and a separator.
pub fn covers(dirs: &[u64], text: &[u8], d: usize, p: &[u8]) -> bool
    ensures { result ≡ covers (text_at text.now (dir_at dirs.now d)) p.now }
{
    is_covered(tables::text_at(text, tables::dir_at(dirs, d)), p)
}

// Whether a directory of the set covers p.
pub fn is_directory(fs: FileStorage, dirs: &[u64], text: &[u8], p: &[u8]) -> bool
    ensures { result ≡ is_directory (dirs_in fs [] dirs.now text.now) p.now }
{
    (0..fs.num_paths).any(|d| covers(dirs, text, d, p))
}

// What the file is that was found, by its number.
pub fn seen_as(rows: &[u64], found: Option<usize>) -> Seen
    ensures { result ≡ seen_as rows.now found }
{
    match found {
        None => Seen::Nothing,
        Some(i) if is_link(rows, i) => Seen::FlaggedLink,
        Some(_) => Seen::RegularFile,
    }
}

// What stands at p. Of files with one internal path the last counts, so it goes from the last to the first.
// Stays: links' `file_in` is the same scan with another test, and `seen_as` is shared; one function for both would be
// passed the test, and be no shorter than the chain.
pub fn file_at(fs: FileStorage, rows: &[u64], dirs: &[u64], text: &[u8], p: &[u8]) -> Seen
    ensures { result ≡ file_at (files_in fs rows.now dirs.now text.now) p.now }
{
    let found = (0..fs.num_files)
        .rev()
        .find(|i| own_is(rows, dirs, text, *i, p));
    seen_as(rows, found)
}
