// Answers about one file that are numbers, truth values or a root. They rely on the refusals of `rules` and on the
// total accessors of `tables`.
ghost use Rattle.std.specs.Prelude.{◌≡◌};
ghost use Rattle.types.specs.Refusals.{outcome};
ghost use Rattle.tables.specs.Rows.{row_at};
ghost use Rattle.rules.specs.Results.{root_says};
ghost use Rattle.rules.specs.Questions.{file_answer, rows_are_held};
ghost use Rattle.answers.specs.Answers.{root_of};
ghost use Rattle.answers.specs.Given.{file_size_given, file_offset_given, pad_file_at_given, file_flags_given};
ghost use Rattle.answers.specs.Given.{file_absolute_path_given, mtime_given, root_given};

use rules::{file_in, holds_roots, holds_rows};
use tables::{FileStorage, Presence, Row, Sha256Hash};
use types::{FileIndex, Refusal};

// The root of file k, zeros where it has none.
pub fn root_of(rows: &[u64], roots: &[u8], k: usize) -> Sha256Hash
    ensures { result.bytes ≡ root_of rows.now roots.now k }
{
    let file = tables::entry_at(rows, roots, k);
    let presence = file.presence;
    let root = file.root;
    match presence {
        Presence::Present => root,
        Presence::Absent => Sha256Hash::new(),
    }
}

// The row of the file that a question about the set's rows is about, or its refusal.
// Stays: a record of all tables would ask for those that a question doesn't read (docs/DECISIONS.md), here and below.
fn row_in(fs: FileStorage, rows: &[u64], index: FileIndex) -> Result<Row, Refusal>
    ensures { outcome result ≡ file_answer fs index.0 (rows_are_held fs rows.now) (row_at rows.now) }
{
    let k = file_in(fs, index, holds_rows(fs, rows))?;
    Ok(tables::row_at(rows, k))
}

// The size of a file.
pub fn file_size(fs: FileStorage, rows: &[u64], index: FileIndex) -> Result<i64, Refusal>
    ensures { outcome result ≡ file_size_given fs rows.now index.0 }
{
    Ok(types::signed64(row_in(fs, rows, index)?.size))
}

// The offset of a file.
pub fn file_offset(fs: FileStorage, rows: &[u64], index: FileIndex) -> Result<i64, Refusal>
    ensures { outcome result ≡ file_offset_given fs rows.now index.0 }
{
    Ok(types::signed64(row_in(fs, rows, index)?.offset))
}

// Whether a file is a pad.
pub fn pad_file_at(fs: FileStorage, rows: &[u64], index: FileIndex) -> Result<bool, Refusal>
    ensures { outcome result ≡ pad_file_at_given fs rows.now index.0 }
{
    Ok(tables::is_pad(row_in(fs, rows, index)?.flags))
}

// The flags of a file: pad 1, hidden 2, executable 4, symlink 8.
pub fn file_flags(fs: FileStorage, rows: &[u64], index: FileIndex) -> Result<u8, Refusal>
    ensures { outcome result ≡ file_flags_given fs rows.now index.0 }
{
    Ok((row_in(fs, rows, index)?.flags % 16) as u8)
}

// Whether a file was added by an absolute path.
pub fn file_absolute_path(fs: FileStorage, rows: &[u64], index: FileIndex) -> Result<bool, Refusal>
    ensures { outcome result ≡ file_absolute_path_given fs rows.now index.0 }
{
    Ok(row_in(fs, rows, index)?.path_index == tables::PATH_IS_ABSOLUTE)
}

// The modified time of a file: the one that its addition gave, 0 for a pad that an addition made.
pub fn mtime(fs: FileStorage, rows: &[u64], index: FileIndex) -> Result<i64, Refusal>
    ensures { outcome result ≡ mtime_given fs rows.now index.0 }
{
    Ok(types::unzigzag64(row_in(fs, rows, index)?.time))
}

// The root of a file, zeros where it has none.
pub fn root(
    fs: FileStorage,
    rows: &[u64],
    roots: &[u8],
    index: FileIndex,
) -> Result<Sha256Hash, Refusal>
    ensures { root_says result ≡ root_given fs rows.now roots.now index.0 }
{
    let held = holds_rows(fs, rows) && holds_roots(fs, roots);
    let k = file_in(fs, index, held)?;
    Ok(root_of(rows, roots, k))
}
