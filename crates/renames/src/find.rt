// A rename read back from the lent tables, whatever they hold: that of a file, or rename i. Relies on check.rt and
// slot.rt and on the laws of proofs/Used.antt and proofs/Chunks.antt.
ghost use Rattle.std.specs.Prelude.{◌≡◌, ◌+◌, ◌*◌, ◌≤◌, length};
ghost use Rattle.types.specs.Refusals.{outcome};
ghost use Rattle.rules.specs.Bounds.{clamped_of};
ghost use Rattle.renames.specs.Finding.{rename_in, find_given, exported};

use crate::check::is_held;
use crate::lent::LentRenames;
use crate::rename::{ENTRY_WIDTH, Rename, RenameMode, RenamedFiles};
use crate::slot::{entry_sought, is_named};
use tables::Span;
use types::{FileIndex, Refusal};

// Rename i, which is one of those held.
fn rename_at(entries: &[u64], i: usize) -> Rename
    requires { i * 4 + 4 ≤ length entries.now }
    ensures { result ≡ rename_in entries.now i }
{
    let [file, mode, len, at] = entries.as_chunks::<ENTRY_WIDTH>().0[i];
    Rename {
        file_index: FileIndex::new(file),
        mode: RenameMode::from(mode),
        name: Span {
            at: at as usize,
            len: len as usize,
        },
    }
}

// The rename of a file, if it has one; `room` is the length of the text area.
// Stays: it is public (docs/PROMISES.md names it), and promises its answer for every length of a text area; `find`
// below serves those who hold the area.
#[tactic(auto, using(crate::proofs::Used::in_use))]
pub fn find_rename(
    renames: RenamedFiles,
    rename_entries: &[u64],
    room: usize,
    file: u64,
) -> Result<Option<Rename>, Refusal>
    ensures { outcome result ≡ find_given renames rename_entries.now room file }
{
    if !is_held(renames, rename_entries, room) {
        return Err(Refusal::NoRoom);
    }
    let count = renames.num_renames;
    let i = entry_sought(&rename_entries[..count * ENTRY_WIDTH], file);
    if !is_named(rename_entries, count, file, i) {
        return Ok(None);
    }
    Ok(Some(rename_at(rename_entries, i)))
}

impl LentRenames<'_> {
    // The rename of a file, if it has one.
    pub fn find(self, index: FileIndex) -> Result<Option<Rename>, Refusal>
        ensures { outcome result
            ≡ find_given self.entry.renames self.entry.entries.now (length self.entry.text.now)
            (clamped_of index.0) }
    {
        let file = index.get() as u64;
        find_rename(self.renames, self.entries, self.text.len(), file)
    }
}

// Rename i, ascending by file.
// Stays: it is public and is lent each table by itself (docs/DECISIONS.md, Forms 10).
pub fn export_filename(
    renames: RenamedFiles,
    rename_entries: &[u64],
    rename_text: &[u8],
    i: usize,
) -> Result<Rename, Refusal>
    ensures { outcome result ≡ exported renames rename_entries.now rename_text.now i }
{
    if renames.num_renames <= i {
        return Err(Refusal::NoSuchFile);
    }
    if !is_held(renames, rename_entries, rename_text.len()) {
        return Err(Refusal::NoRoom);
    }
    Ok(rename_at(rename_entries, i))
}
