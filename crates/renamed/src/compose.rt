// A file's whole path through its rename, composed into a lent buffer. Relies on `renames` for the rename, on
// `names` and `path` for joins and on the laws of proofs/Paths.antt and proofs/Deciding.antt.
ghost use Rattle.std.specs.Prelude.{◌&&◌, ◌≡◌, length};
ghost use Rattle.types.specs.Refusals.{outcome};
ghost use Rattle.path.specs.Join.{joined_says};
ghost use Rattle.rules.specs.Questions.{file_answer};
ghost use Rattle.rules.specs.Composed.{composed_if};
ghost use Rattle.names.specs.Paths.{names_held};
ghost use Rattle.renames.specs.Renames.{renames_held};
ghost use Rattle.renames.specs.Finding.{rename_found};
ghost use Rattle.renamed.specs.Questions.{path_by, path_into};

use renames::{LentRenames, Rename, RenameMode, RenamedFiles};
use tables::{FileStorage, LentSet};
use types::{FileIndex, Refusal};

// The rename of a file, if it has one, or why a question about the file's path isn't answered.
fn find_through(
    set: LentSet<'_>,
    names: LentRenames<'_>,
    index: FileIndex,
) -> Result<Option<Rename>, Refusal>
    ensures { outcome result ≡ file_answer set.entry.fs index.0
        (names_held set.entry.fs set.entry.lent.rows.now set.entry.lent.dirs.now set.entry.lent.text.now
        && renames_held names.entry.renames names.entry.entries.now (length names.entry.text.now))
        (rename_found names.entry.renames names.entry.entries.now) }
{
    names::file_of(set, index)?;
    names.find(index)
}

// Writes the path that a rename's text `name` is read as by its mode; `set` is the set's name.
// Stays: a match says which mode is read how; a closure for each mode would be no plainer.
fn put_renamed(
    mode: RenameMode,
    save_path: &[u8],
    set: &[u8],
    name: &[u8],
    buf: &mut [u8],
) -> Result<usize, Refusal>
    ensures { joined_says result buf.new
        ≡ composed_if 0 (path_by mode save_path.now set.now name.now)
        buf.old }
{
    match mode {
        RenameMode::FullPath => names::compose_path(save_path, set, b"", name, buf),
        RenameMode::NoRootPath => path::join_path(save_path, name, buf),
        RenameMode::AbsolutePath => path::join_path(b"", name, buf),
    }
}

// Writes the whole path of a file through its rename, after `save_path`, to `buf`.
// Stays: it is public and is lent each table by itself, as those in question.rt are, which read fewer
// (docs/DECISIONS.md, Forms 10).
pub fn file_path(
    fs: FileStorage,
    rows: &[u64],
    dirs: &[u64],
    text: &[u8],
    renames: RenamedFiles,
    rename_entries: &[u64],
    rename_text: &[u8],
    index: FileIndex,
    save_path: &[u8],
    buf: &mut [u8],
) -> Result<usize, Refusal>
    ensures { joined_says result buf.new
        ≡ path_into fs rows.now dirs.now text.now renames
        rename_entries.now rename_text.now index.0 save_path.now
        buf.old }
{
    let set = LentSet::new(fs, rows, dirs, text);
    let names = LentRenames::new(renames, rename_entries, rename_text);
    match find_through(set, names, index)? {
        Some(rename) => {
            let set_name = tables::text_at(text, fs.name);
            let name = tables::text_at(rename_text, rename.name);
            put_renamed(rename.mode, save_path, set_name, name, buf)
        }
        None => names::file_path(fs, rows, dirs, text, index, save_path, buf),
    }
}
