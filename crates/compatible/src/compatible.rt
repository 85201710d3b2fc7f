// Whether two sets have the same layout and names. Relies on walk.rt to compare composed paths, and on
// `names` for the parts of a file's path.
ghost use Rattle.std.specs.Prelude.{◌≡◌};
ghost use Rattle.types.specs.Refusals.{outcome};
ghost use Rattle.tables.specs.Rows.{row_at};
ghost use Rattle.compatible.specs.Compatible.{named_set_of, is_relevant, same_named, same_file, same_from, compatible};
ghost use Rattle.compatible.specs.Compatible.{path_of, link_of, held_in, files_compatible};
ghost use Rattle.compatible.specs.private.Sets.{set_of};
ghost use Rattle.compatible.specs.private.Walk.{whole_of};

use crate::walk::{Pieces, compose, join, same_pieces};
use names::set_span;
use rules::{Tests, holds_set, is_bad_length};
use tables::{FileStorage, LentSet, Row};
use types::Refusal;

// Whether the file of `row` is no pad and not empty.
fn is_relevant(row: Row) -> bool
    ensures { result ≡ is_relevant row }
{
    !tables::is_pad(row.flags) && 0 < row.size
}

// A file: its set, and its row there.
#[derive(Clone, Copy)]
struct FileIn<'a> {
    set: LentSet<'a>,
    row: Row,
}

impl<'a> FileIn<'a> {
    // File k of a set.
    // Stays: it converts nothing; the file's row is read here once for all tests.
    fn numbered(set: LentSet<'a>, k: usize) -> FileIn<'a>
        ensures { result ≡ record { set = set.entry; row = row_at set.entry.lent.rows.now k } }
    {
        let row = tables::row_at(set.lent.rows, k);
        FileIn { set, row }
    }

    // The file's path, in pieces. It is taken into the comparison, which calls it twice: a call of its own costs a copy of
    // the set's record.
    #[inline(always)]
    fn path_pieces(self) -> Pieces<'a>
        ensures { whole_of result ≡ path_of (set_of self.entry.set) self.entry.row }
    {
        let FileIn { set, row } = self;
        let text = set.lent.text;
        let lead = tables::text_at(text, set_span(set.fs, row));
        let directory = set.lent.directory_of(row);
        compose(lead, directory, tables::text_at(text, row.name))
    }

    // The path that the file's link leads to, in pieces.
    fn link_pieces(self) -> Pieces<'a>
        ensures { whole_of result ≡ link_of (set_of self.entry.set) self.entry.row }
    {
        let FileIn { set, row } = self;
        if !tables::holds_link(row.flags) {
            return join(b"", b"");
        }
        let text = set.lent.text;
        join(
            tables::text_at(text, set.fs.name),
            tables::text_at(text, row.link),
        )
    }

    // Whether size, path and offset are the same, and so is the link where this file is flagged as one.
    // Stays: a derived `==` would compare the spans, and not the texts that they name.
    fn is_same_named(self, other: FileIn<'_>) -> bool
        ensures { result
            ≡ same_named (set_of self.entry.set) (set_of other.entry.set) self.entry.row other.entry.row }
    {
        self.row.size == other.row.size
            && same_pieces(self.path_pieces(), other.path_pieces())
            && self.row.offset == other.row.offset
            && (!tables::is_symlink(self.row.flags)
                || same_pieces(self.link_pieces(), other.link_pieces()))
    }

    // Whether both files are relevant or neither is, and where they are relevant they are the same.
    // Stays: two files that are not relevant are the same here whatever their rows say, and a derived `==` compares
    // them.
    fn is_same(self, other: FileIn<'_>) -> bool
        ensures { result
            ≡ same_file (set_of self.entry.set) (set_of other.entry.set) self.entry.row other.entry.row }
    {
        if is_relevant(self.row) {
            is_relevant(other.row) && self.is_same_named(other)
        } else {
            !is_relevant(other.row)
        }
    }
}

// Whether each file of the first set is the same as the second set's file of its number.
// Stays: the rows are lent as words, and those past the count or that are not relevant are not to be compared.
fn same_files(a: LentSet<'_>, b: LentSet<'_>) -> bool
    ensures { result ≡ same_from a.entry.fs.num_files 0 (set_of a.entry) (set_of b.entry) }
{
    (0..a.fs.num_files).all(|k| FileIn::numbered(a, k).is_same(FileIn::numbered(b, k)))
}

// Whether counts, totals and piece lengths are the same, and each file is.
fn are_compatible(a: LentSet<'_>, b: LentSet<'_>) -> bool
    ensures { result ≡ compatible (set_of a.entry) (set_of b.entry) }
{
    a.fs.num_files == b.fs.num_files
        && a.fs.total_size == b.fs.total_size
        && a.fs.piece_length == b.fs.piece_length
        && same_files(a, b)
}

// Whether two sets have the same layout and names, pads and empty files aside; not symmetric, since a link
// is compared only where the first set flags it as one.
// Stays: it is public and is lent each table by itself (docs/DECISIONS.md, Forms 10).
pub fn files_compatible(
    a: FileStorage,
    rows_a: &[u64],
    dirs_a: &[u64],
    text_a: &[u8],
    b: FileStorage,
    rows_b: &[u64],
    dirs_b: &[u64],
    text_b: &[u8],
) -> Result<bool, Refusal>
    ensures { outcome result ≡ files_compatible
        (named_set_of a rows_a.now dirs_a.now text_a.now)
        (named_set_of b rows_b.now dirs_b.now text_b.now) }
{
    let set_a = LentSet::new(a, rows_a, dirs_a, text_a);
    let set_b = LentSet::new(b, rows_b, dirs_b, text_b);
    Tests {
        bad_length: is_bad_length(a.piece_length) || is_bad_length(b.piece_length),
        no_room: !holds_set(set_a) || !holds_set(set_b),
        ..Tests::default()
    }
    .first_refusal()?;
    Ok(are_compatible(set_a, set_b))
}
