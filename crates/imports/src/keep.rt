// The renames that are kept when a list of names is imported: counting them, and moving them together in both
// tables. Relies on notes.rt and on the laws of proofs/Keeping.antt and, of `renames`, proofs/Chunks.antt.
ghost use Rattle.std.specs.Prelude.{◌≡◌, ◌+◌, ◌/◌, ◌≤◌, ◌<◌, ◌^◌, length};
ghost use Rattle.std.proofs.lemmas.List.Edits.{sets};
ghost use Rattle.renames.specs.Renames.{renames_from, texts_of};
ghost use Rattle.renames.specs.private.Slots.{bytes_from};
ghost use Rattle.imports.specs.private.Importing.{renames_kept, kept_count, kept_bytes, kept_words};
ghost use Rattle.imports.specs.private.Merging.{is_noted};

use crate::notes::is_noted;
use renames::{ENTRY_WIDTH, RenamedFiles};

// The record of those of the renames in use that are kept.
// Stays: that the lengths sum to less than 2^64 is asked here, below and in functions of `renames`, which sum some of
// them; a type of entries with that bound would be made in each caller from the test that the tables are in order.
#[tactic(auto, using(crate::proofs::Keeping::counting))]
pub(crate) fn count_kept(entries: &[u64], notes: &[u64]) -> RenamedFiles
    requires { bytes_from (length entries.now / 4) 0 entries.now < 2 ^ 64 }
    ensures { result
        ≡ record {
          num_renames = kept_count (is_noted notes.now) (length entries.now / 4) 0 entries.now;
          text_len = kept_bytes (is_noted notes.now) (length entries.now / 4) 0 entries.now;
        } }
{
    let mut count = 0;
    let mut bytes: usize = 0;
    for entry in entries.chunks_exact(ENTRY_WIDTH) {
        if !is_noted(notes, entry[0]) {
            count += 1;
            bytes += entry[2] as usize;
        }
    }
    RenamedFiles {
        num_renames: count,
        text_len: bytes,
    }
}

// Moves the kept ones of the entries in use together, their texts beginning at byte `at`.
// Stays: it moves entries within the table that it goes over, and an iterator over the table would hold it borrowed.
#[tactic(auto, using(crate::proofs::Keeping::moving))]
pub(crate) fn keep_entries(entries: &mut [u64], notes: &[u64], at: usize)
    requires { at + kept_bytes (is_noted notes.now) (length entries.old / 4) 0 entries.old < 2 ^ 64 }
    ensures { entries.new
        ≡ sets entries.old 0
        (kept_words (is_noted notes.now) (length entries.old / 4) 0 at entries.old) }
{
    let mut to = 0;
    let mut begin = at as u64;
    for i in 0..entries.len() / ENTRY_WIDTH {
        let file = entries[i * ENTRY_WIDTH];
        if !is_noted(notes, file) {
            let len = entries[i * ENTRY_WIDTH + 2];
            let entry = [file, entries[i * ENTRY_WIDTH + 1], len, begin];
            lists::copy_after(entries, to * ENTRY_WIDTH, &entry);
            begin += len;
            to += 1;
        }
    }
}

// Moves the texts of the kept ones of the entries in use together.
#[tactic(auto, using(crate::proofs::Keeping::joining))]
pub(crate) fn keep_texts(text: &mut [u8], entries: &[u64], notes: &[u64])
    requires { bytes_from (length entries.now / 4) 0 entries.now ≤ length text.old }
    ensures { text.new
        ≡ sets text.old 0
        (texts_of
        (renames_kept (is_noted notes.now)
        (renames_from (length entries.now / 4) 0 entries.now text.old))) }
{
    let mut from = 0;
    let mut to = 0;
    for entry in entries.chunks_exact(ENTRY_WIDTH) {
        let len = entry[2] as usize;
        if !is_noted(notes, entry[0]) {
            text.copy_within(from..from + len, to);
            to += len;
        }
        from += len;
    }
}
