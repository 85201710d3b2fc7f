// Answers about one file that are texts: a span of the text area, or a path composed into a lent buffer.
// They rely on the refusals of `rules`, on the total accessors of `tables` and on the joins of `path`.
ghost use Rattle.std.specs.Prelude.{◌&&◌, ◌≡◌};
ghost use Rattle.types.specs.Refusals.{outcome};
ghost use Rattle.path.specs.Join.{joined_says};
ghost use Rattle.tables.specs.Rows.{row_at, has, link_held_bit};
ghost use Rattle.rules.specs.Questions.{link_answer, no_link, row_there, rows_are_held, text_held};
ghost use Rattle.rules.specs.Composed.{composed_if};
ghost use Rattle.answers.specs.Answers.{internal_path, symlink_path};
ghost use Rattle.answers.specs.Given.{file_name_given, internal_symlink_given, symlink_given, internal_file_path_given};

use rules::{file_in, holds_rows, holds_text};
use tables::{FileStorage, Lent, LentSet, Row, Span};
use types::{FileIndex, Refusal};

// Whether a table of rows and a text area are long enough for the set.
fn are_held(fs: FileStorage, rows: &[u64], text: &[u8]) -> bool
    ensures { result ≡ (rows_are_held fs rows.now && text_held fs text.now) }
{
    holds_rows(fs, rows) && holds_text(fs, text)
}

// Whether the row of file k is there and holds no link text.
fn is_unlinked(rows: &[u64], k: usize) -> bool
    ensures { result ≡ (no_link (row_there rows.now k) (has (row_at rows.now k).flags link_held_bit)).test }
{
    rules::is_there(rows, k) && !tables::holds_link(tables::flags_at(rows, k))
}

// The number of the file whose link text a question is about, or its refusal; `held` says whether the lent tables are
// long enough.
// Stays: it is no call of `file_in`: whether the file is a link is tested between that function's two last tests, since
// a file that is none is refused before tables that are too short. As a field of `rules::Tests` it would
// stand in the clauses of `of_set`, `of_piece` and `of_file`, for this one question.
// Stays: a record of all tables would ask for those that a question doesn't read (docs/DECISIONS.md), here and below.
fn link_in(fs: FileStorage, rows: &[u64], index: FileIndex, held: bool) -> Result<usize, Refusal>
    ensures { outcome result
        ≡ link_answer fs index.0
        (row_there rows.now) (λ k. has (row_at rows.now k).flags link_held_bit) held (λ k. k) }
{
    if rules::is_bad_length(fs.piece_length) {
        return Err(Refusal::InvalidPieceLength);
    }
    let k = index.within(fs.num_files)?;
    if is_unlinked(rows, k) {
        return Err(Refusal::NotASymlink);
    }
    if rules::are_held(fs, held) {
        return Ok(k);
    }
    Err(Refusal::NoRoom)
}

// Writes the path within the set of file k.
// Stays: the separator between the two texts depends on both, and the buffer is lent, so no format string writes it.
fn put_internal(lent: Lent<'_>, k: usize, buf: &mut [u8]) -> Result<usize, Refusal>
    ensures { joined_says result buf.new
        ≡ composed_if 0
        (internal_path lent.entry.dirs.now lent.entry.text.now (row_at lent.entry.rows.now k))
        buf.old }
{
    let row = tables::row_at(lent.rows, k);
    let branch = lent.directory_of(row);
    let leaf = tables::text_at(lent.text, row.name);
    path::join_path(branch, leaf, buf)
}

// Writes the path that the link of the file in `row` leads to; nothing where it holds no link text.
// Stays: whether a separator stands between the set's name and the link text depends on both, as in `put_internal`.
fn put_link(fs: FileStorage, text: &[u8], row: Row, buf: &mut [u8]) -> Result<usize, Refusal>
    ensures { joined_says result buf.new
        ≡ composed_if 0 (symlink_path fs text.now row) buf.old }
{
    if !tables::holds_link(row.flags) {
        return Ok(0);
    }
    let branch = tables::text_at(text, fs.name);
    let leaf = tables::text_at(text, row.link);
    path::join_path(branch, leaf, buf)
}

// Where a file's name stands in the text area.
// Stays: a record of all tables would ask for directories, which this and the two below don't read (docs/DECISIONS.md).
pub fn file_name(
    fs: FileStorage,
    rows: &[u64],
    text: &[u8],
    index: FileIndex,
) -> Result<Span, Refusal>
    ensures { outcome result ≡ file_name_given fs rows.now text.now index.0 }
{
    let held = are_held(fs, rows, text);
    let k = file_in(fs, index, held)?;
    Ok(tables::row_at(rows, k).name)
}

// Where a file's link text stands in the text area.
pub fn internal_symlink(
    fs: FileStorage,
    rows: &[u64],
    text: &[u8],
    index: FileIndex,
) -> Result<Span, Refusal>
    ensures { outcome result ≡ internal_symlink_given fs rows.now text.now index.0 }
{
    let held = are_held(fs, rows, text);
    let k = link_in(fs, rows, index, held)?;
    Ok(tables::row_at(rows, k).link)
}

// Writes the path that a link leads to, with the set's name, into `buf`; nothing where the file holds no link text.
pub fn symlink(
    fs: FileStorage,
    rows: &[u64],
    text: &[u8],
    index: FileIndex,
    buf: &mut [u8],
) -> Result<usize, Refusal>
    ensures { joined_says result buf.new
        ≡ symlink_given fs rows.now text.now index.0 buf.old }
{
    let held = are_held(fs, rows, text);
    let k = file_in(fs, index, held)?;
    put_link(fs, text, tables::row_at(rows, k), buf)
}

// Writes the path of a file within the set into `buf`.
// Stays: it takes the tables as its neighbours do, which read fewer of them (docs/DECISIONS.md).
pub fn internal_file_path(
    fs: FileStorage,
    rows: &[u64],
    dirs: &[u64],
    text: &[u8],
    index: FileIndex,
    buf: &mut [u8],
) -> Result<usize, Refusal>
    ensures { joined_says result buf.new
        ≡ internal_file_path_given fs rows.now dirs.now text.now index.0
        buf.old }
{
    let set = LentSet::new(fs, rows, dirs, text);
    let k = file_in(fs, index, rules::holds_set(set))?;
    put_internal(set.lent, k, buf)
}
