// `rename_file`: a rename is decided first and written after. Relies on check.rt, slot.rt and splice.rt, on
// `rules` for the set's refusals and on the laws of proofs/Changes.antt, proofs/Decisions.antt and proofs/Used.antt.
ghost use Rattle.std.specs.Prelude.{◌≡◌, true, ◌+◌, ◌-◌, ◌/◌, ◌≤◌, length};
ghost use Rattle.types.specs.Refusals.{outcome};
ghost use Rattle.std.proofs.lemmas.List.Edits.{sets};
ghost use Rattle.renames.specs.Renames.{mode_for, ordered_from, placed_from, words_of, texts_of, state_of};
ghost use Rattle.renames.specs.Renames.{renames_changed_of, rename_file_answer};
ghost use Rattle.renames.specs.private.Slots.{slot_of};
ghost use Rattle.renames.specs.private.Changing.{slot_given, is_short, renames_with};

use crate::lent::LentRenames;
use crate::rename::{ENTRY_WIDTH, RenameMode, RenamedFiles};
use crate::slot::{Slot, place_texts, slot_of};
use crate::splice::splice;
use tables::FileStorage;
use types::{FileIndex, Refusal};

// Whether the tables are too short for a text of `len` bytes at slot p.
fn is_short(names: LentRenames<'_>, p: Slot, len: usize) -> bool
    requires { (names.renames.num_renames ≤ length names.entries.now / 4)
        × (names.renames.text_len ≤ length names.text.now)
        × (p.old ≤ names.renames.text_len)
        × (p.same ≤ 1) }
    ensures { result
        ≡ is_short names.entry.renames p (length names.entry.entries.now) (length names.entry.text.now) len }
{
    let held = names.renames;
    names.entries.len() / ENTRY_WIDTH < held.num_renames + 1 - p.same
        || names.text.len() - (held.text_len - p.old) < len
}

// The slot of a rename whose text has `len` bytes, or why the rename is refused.
// Stays: `len` is the length of the new text, of which no byte is read.
#[tactic(auto, using(crate::proofs::Decisions::orders, crate::proofs::Used::in_use))]
fn slot_in(
    fs: FileStorage,
    names: LentRenames<'_>,
    index: FileIndex,
    len: usize,
) -> Result<Slot, Refusal>
    ensures { outcome result
        ≡ slot_given fs names.entry.renames names.entry.entries.now (length names.entry.text.now)
        index.0 len }
{
    let file = rules::file_in(fs, index, true)?;
    // Stays: a method that gives the entries in use, or 10, would save three lines here and three in `decide` of
    // `imports`; with its contract of two cases and its must-fail edit it takes seventeen.
    if !names.is_in_order() {
        return Err(Refusal::NoRoom);
    }
    let p = slot_of(
        &names.entries[..names.renames.num_renames * ENTRY_WIDTH],
        file as u64,
    );
    if is_short(names, p, len) {
        return Err(Refusal::NoRoom);
    }
    Ok(p)
}

// A name's mode: an absolute name is read alone.
fn mode_for(name: &[u8]) -> RenameMode
    ensures { result ≡ mode_for name.now }
{
    if path::is_complete(name) {
        RenameMode::AbsolutePath
    } else {
        RenameMode::FullPath
    }
}

// Writes a rename, for which there is room, at its slot p, and gives the record.
// Stays: std's `splice` is of `Vec`, which needs a heap. The record and both tables go side by side: as one record lent
// for writing, each clause would name a field before and after.
#[tactic(auto, using(crate::proofs::Changes::slot_in))]
pub(crate) fn put_rename(
    renames: RenamedFiles,
    entries: &mut [u64],
    text: &mut [u8],
    file: u64,
    p: Slot,
    mode: RenameMode,
    name: &[u8],
) -> RenamedFiles
    requires { (ordered_from renames.num_renames 0 0 renames.text_len entries.old ≡ true)
        × (placed_from renames.num_renames 0 0 entries.old ≡ true)
        × (p ≡ slot_of renames.num_renames file entries.old)
        × (renames.num_renames ≤ length entries.old / 4)
        × (renames.text_len ≤ length text.old)
        × (renames.num_renames + 1 - p.same ≤ length entries.old / 4)
        × (renames.text_len - p.old + length name.now ≤ length text.old) }
    ensures value { result ≡ state_of (renames_with renames entries.old text.old file mode name.now) }
    ensures entries_after { entries.new
        ≡ sets entries.old 0
        (words_of (renames_with renames entries.old text.old file mode name.now)) }
    ensures text_after { text.new
        ≡ sets text.old 0
        (texts_of (renames_with renames entries.old text.old file mode name.now)) }
{
    let len = name.len();
    let entry = [file, u64::from(mode), len as u64, p.at as u64];
    splice(text, renames.text_len, p.at, p.old, name);
    splice(
        entries,
        renames.num_renames * ENTRY_WIDTH,
        p.entry * ENTRY_WIDTH,
        p.same * ENTRY_WIDTH,
        &entry,
    );
    let count = renames.num_renames + 1 - p.same;
    place_texts(entries, p.entry + 1, count, p.at + len);
    RenamedFiles {
        num_renames: count,
        text_len: renames.text_len - p.old + len,
    }
}

// Records another path for a file, or why not.
// Stays: it is public and is lent each table by itself (docs/DECISIONS.md, Forms 10).
pub fn rename_file(
    fs: FileStorage,
    renames: RenamedFiles,
    rename_entries: &mut [u64],
    rename_text: &mut [u8],
    index: FileIndex,
    new_filename: &[u8],
) -> Result<RenamedFiles, Refusal>
    ensures { renames_changed_of (outcome result) rename_entries.new rename_text.new
        ≡ rename_file_answer fs renames rename_entries.old rename_text.old index.0
        new_filename.now }
{
    let names = LentRenames::new(renames, rename_entries, rename_text);
    let p = slot_in(fs, names, index, new_filename.len())?;
    Ok(put_rename(
        renames,
        rename_entries,
        rename_text,
        index.get() as u64,
        p,
        mode_for(new_filename),
        new_filename,
    ))
}
