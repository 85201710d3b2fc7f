// `import_filenames`: names for many files at once, decided first and written after, in time linear in the list, the
// entries and the files. Two notes for each file take 16 KiB of the stack, and 1 MiB where there are more than 1024
// files. Relies on `renames` for the order of the tables, on `rules` for the refusals in order, on the files beside it
// for the notes, the counts and the writing, and on the laws of proofs/Importing.antt, proofs/Noting.antt,
// proofs/Keeping.antt and proofs/Used.antt of `renames`.
ghost use Rattle.std.specs.Prelude.{◌≡◌, ◌≤◌, ◌&&◌, length, min};
ghost use Rattle.types.specs.Refusals.{outcome};
ghost use Rattle.rules.specs.Questions.{few_entries};
ghost use Rattle.renames.specs.Renames.{renames_changed_of, state_of};
ghost use Rattle.imports.specs.Imports.{list_held, import_lent};
ghost use Rattle.imports.specs.private.Importing.{renames_given, import_asked};
ghost use Rattle.imports.specs.private.Merging.{Noted};

use crate::counted::Counted;
use crate::give::count_given;
use crate::keep::count_kept;
use crate::listed::{NameList, has_negative, is_list_held};
use crate::merge::{NotedList, give};
use crate::notes::{note_last, note_places};
use renames::{ENTRY_WIDTH, LentRenames, RenamedFiles};
use rules::Tests;
use tables::FileStorage;
use types::Refusal;

// The records of the renames that are kept and of the names that are given, or why the list is refused.
fn decide(
    fs: FileStorage,
    held: LentRenames<'_>,
    list: NameList<'_>,
    notes: &[u64],
) -> Result<Counted, Refusal>
    requires { Noted (length notes.now) list.numbers.now notes.now × (length notes.now ≡ min fs.num_files 65536) }
    ensures { outcome result ≡ import_asked fs held.entry.renames held.entry.entries.now
        (length held.entry.text.now) list.entry.numbers.now
        (list_held list.entry.numbers.now list.entry.lengths.now list.entry.names.now && few_entries fs)
        (state_of
        (renames_given fs.num_files list.entry.numbers.now list.entry.lengths.now list.entry.names.now)) }
{
    Tests {
        no_file: has_negative(list.numbers),
        ..Tests::of_set(fs, is_list_held(list))
    }
    .first_refusal()?;
    // Stays: a method of `renames` that gives the entries in use, or 10, would save three lines here; it would be
    // public, and its contract and must-fail edit are longer than what it saves in all (change.rt of `renames`).
    if !held.is_in_order() {
        return Err(Refusal::NoRoom);
    }
    let stay = count_kept(
        &held.entries[..held.renames.num_renames * ENTRY_WIDTH],
        notes,
    );
    let come = count_given(list, notes);
    let counted = Counted { stay, come };
    if counted.is_full(held) {
        return Err(Refusal::NoRoom);
    }
    Ok(counted)
}

// Imports a list with notes for so many files. It is a call of its own, so that the stack for many files is taken only
// where a set has them.
// Stays: the two tables of renames and their record, as in the public function.
#[inline(never)]
fn import_noted<const FILES: usize>(
    fs: FileStorage,
    renames: RenamedFiles,
    rename_entries: &mut [u64],
    rename_text: &mut [u8],
    list: NameList<'_>,
) -> Result<RenamedFiles, Refusal>
    requires { (min fs.num_files 65536 ≤ FILES) × (FILES ≤ 65536) }
    ensures { renames_changed_of (outcome result) rename_entries.new rename_text.new
        ≡ import_lent fs renames rename_entries.old rename_text.old list.entry.numbers.now
        list.entry.lengths.now list.entry.names.now }
{
    let files = fs.num_files.min(65536);
    let mut cells = [0u64; FILES];
    let notes = &mut cells[..files];
    note_last(notes, list.numbers);
    let held = LentRenames::new(renames, rename_entries, rename_text);
    let counted = decide(fs, held, list, notes)?;
    let mut cells = [0u64; FILES];
    let places = &mut cells[..files];
    note_places(places, list.numbers, list.lengths);
    let noted = NotedList {
        lent: list,
        notes,
        places,
    };
    give(renames, counted, rename_entries, rename_text, noted);
    Ok(counted.total())
}

// Records other paths for many files, or why not: file `numbers[i]` gets the name of `lengths[i]` bytes, the names
// stand one after the other. Numbers past the end are skipped, and of repeats the last counts. A list with fewer
// lengths than numbers, or fewer bytes of names than the lengths say, is refused.
// Stays: it is public, and its clause speaks of the three lists; within, `NameList` is the record of them.
pub fn import_filenames(
    fs: FileStorage,
    renames: RenamedFiles,
    rename_entries: &mut [u64],
    rename_text: &mut [u8],
    numbers: &[i32],
    lengths: &[u64],
    names: &[u8],
) -> Result<RenamedFiles, Refusal>
    ensures { renames_changed_of (outcome result) rename_entries.new rename_text.new
        ≡ import_lent fs renames rename_entries.old rename_text.old numbers.now
        lengths.now names.now }
{
    let list = NameList {
        numbers,
        lengths,
        names,
    };
    if fs.num_files <= 1024 {
        return import_noted::<1024>(fs, renames, rename_entries, rename_text, list);
    }
    import_noted::<65536>(fs, renames, rename_entries, rename_text, list)
}
