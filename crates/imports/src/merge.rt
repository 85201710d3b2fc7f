// The names of a list and the renames that are kept, brought together: the kept ones stand at the end of the room that
// all need, and the files are gone through in order, so that nothing unread is overwritten. Relies on keep.rt for
// moving and on the laws of proofs/Merging.antt, proofs/Raising.antt, proofs/Keeping.antt and, of `renames`,
// proofs/Splices.antt and proofs/Used.antt.
ghost use Rattle.std.specs.Prelude.{◌≡◌, true, false, [], ◌∷◌, ℕ, ◌+◌, ◌-◌, ◌*◌, ◌/◌, ◌≤◌, ◌<◌, length, get_or};
ghost use Rattle.std.specs.Prelude.{MatchOption};
ghost use Rattle.std.proofs.lemmas.List.Edits.{sets};
ghost use Rattle.lists.specs.Lists.{part_of};
ghost use Rattle.renames.specs.Renames.{placed_from, renames_of, words_of, texts_of};
ghost use Rattle.renames.specs.Finding.{entry_is_named};
ghost use Rattle.renames.specs.private.Slots.{bytes_from};
ghost use Rattle.imports.specs.private.Importing.{renames_kept, kept_state};
ghost use Rattle.imports.specs.private.Merging.{kept_in};
ghost use Rattle.imports.specs.private.Listed.{named_in, given_in, merged_with};
ghost use Rattle.imports.specs.private.Merging.{step_words, step_text, after_given, after_kept, step_place};

use crate::counted::Counted;
use crate::keep::{keep_entries, keep_texts};
use crate::listed::NameList;
use renames::{ENTRY_WIDTH, RenameMode, RenamedFiles, is_named};

// The next free entry and the next free byte, and the next entry that is kept and where its text begins.
#[derive(Clone, Copy)]
pub(crate) struct Place {
    pub to: usize,
    pub at: usize,
    pub next: usize,
    pub from: usize,
}

// A list of names as it is merged: as it is lent, and for each file the last number that names it and where its name
// begins.
// Stays: notes and places as two tables. A list's lengths may be summed only once it is known to be whole, and the
// decision reads the notes: so each table is filled by a pass of its own, and only `name_of` reads both.
#[derive(Clone, Copy)]
pub(crate) struct NotedList<'a> {
    pub lent: NameList<'a>,
    pub notes: &'a [u64],
    pub places: &'a [u64],
}

// The name that is noted for a file, if there is one.
fn name_of<'a>(list: NotedList<'a>, file: usize) -> Option<&'a [u8]>
    ensures { MatchOption result
        (named_in list.entry file ≡ false)
        (λ name. (named_in list.entry file ≡ true) × (name.now ≡ (given_in list.entry file).name)) }
{
    let i = (lists::item_or(list.notes, file, 0) as usize).checked_sub(1)?;
    let at = lists::item_or(list.places, file, 0) as usize;
    let len = lists::item_or(list.lent.lengths, i, 0) as usize;
    Some(lists::part(list.lent.names, at, len))
}

// Writes a name that is given to a file, and gives the place after it.
// Stays: it writes to two lent tables and moves a place on in both; with one record of the three each clause would name
// a field before and after, here and below.
fn put_given(entries: &mut [u64], text: &mut [u8], p: Place, file: usize, name: &[u8]) -> Place
    requires { (p.to * 4 + 4 ≤ length entries.old) × (p.at + length name.now ≤ length text.old) }
    ensures value { result ≡ after_given p (length name.now) }
    ensures entries_after { entries.new
        ≡ sets entries.old (p.to * 4) (file ∷ 0 ∷ length name.now ∷ p.at ∷ []) }
    ensures text_after { text.new ≡ sets text.old p.at name.now }
{
    let entry = [
        file as u64,
        u64::from(RenameMode::FullPath),
        name.len() as u64,
        p.at as u64,
    ];
    lists::copy_after(entries, p.to * ENTRY_WIDTH, &entry);
    lists::copy_after(text, p.at, name);
    Place {
        to: p.to + 1,
        at: p.at + name.len(),
        ..p
    }
}

// Moves the next entry that is kept and its text, and gives the place after them.
// Stays: the copying is std's `copy_within`; only the place is moved on here.
#[tactic(auto, using(crate::proofs::Keeping::kept_text))]
fn put_kept(entries: &mut [u64], text: &mut [u8], p: Place) -> Place
    requires { (p.to ≤ p.next)
        × (p.next * 4 + 4 ≤ length entries.old)
        × (p.at ≤ p.from)
        × (p.from + get_or entries.old (p.next * 4 + 2) 0 ≤ length text.old) }
    ensures value { result ≡ after_kept p (get_or entries.old (p.next * 4 + 2) 0) }
    ensures entries_after { entries.new
        ≡ sets entries.old (p.to * 4)
        (get_or entries.old (p.next * 4) 0
        ∷ get_or entries.old (p.next * 4 + 1) 0
        ∷ get_or entries.old (p.next * 4 + 2) 0
        ∷ p.at
        ∷ []) }
    ensures text_after { text.new
        ≡ sets text.old p.at
        (part_of text.old p.from (get_or entries.old (p.next * 4 + 2) 0)) }
{
    let next = p.next * ENTRY_WIDTH;
    let len = entries[next + 2] as usize;
    let entry = [entries[next], entries[next + 1], len as u64, p.at as u64];
    lists::copy_after(entries, p.to * ENTRY_WIDTH, &entry);
    text.copy_within(p.from..p.from + len, p.at);
    Place {
        to: p.to + 1,
        at: p.at + len,
        next: p.next + 1,
        from: p.from + len,
    }
}

// Writes what a file gets: the name that is noted, or its own rename, which is the next that is kept, or nothing.
// Stays: it copies nothing itself: it chooses between `put_given` and `put_kept`, in which std copies.
fn put_file(
    entries: &mut [u64],
    text: &mut [u8],
    p: Place,
    file: usize,
    list: NotedList<'_>,
) -> Place
    requires { (p.to ≤ p.next)
        × (p.at ≤ p.from)
        × (named_in list file ≡ true
        → (p.to < length entries.old / 4)
        × (p.at + length (given_in list file).name ≤ length text.old))
        × (entry_is_named (length entries.old / 4) file p.next entries.old ≡ true
        → p.from + get_or entries.old (p.next * 4 + 2) 0 ≤ length text.old) }
    ensures value { result
        ≡ step_place (named_in list.entry file) (entry_is_named (length entries.old / 4) file p.next entries.old)
        (length (given_in list.entry file).name)
        (get_or entries.old (p.next * 4 + 2) 0)
        p }
    ensures entries_after { entries.new
        ≡ sets entries.old (p.to * 4)
        (step_words (named_in list.entry file) (entry_is_named (length entries.old / 4) file p.next entries.old) file
        p.at
        (given_in list.entry file).name
        entries.old
        p.next) }
    ensures text_after { text.new
        ≡ sets text.old p.at
        (step_text (named_in list.entry file) (entry_is_named (length entries.old / 4) file p.next entries.old)
        (given_in list.entry file).name
        text.old
        p.from
        (get_or entries.old (p.next * 4 + 2) 0)) }
{
    if let Some(name) = name_of(list, file) {
        return put_given(entries, text, p, file, name);
    }
    if is_named(entries, entries.len() / ENTRY_WIDTH, file as u64, p.next) {
        return put_kept(entries, text, p);
    }
    p
}

// Goes through the files in order and writes what each gets. The renames that are kept are the last of the entries,
// after as many as the list gives, and their texts stand where these entries say.
fn merge(entries: &mut [u64], text: &mut [u8], come: RenamedFiles, list: NotedList<'_>)
    requires { (come.num_renames ≤ length entries.old / 4)
        × (come.text_len + bytes_from (length entries.old / 4 - come.num_renames) come.num_renames entries.old
        ≤ length text.old)
        × ((j : ℕ) → come.num_renames ≤ j → j < length entries.old / 4 → get_or entries.old (j * 4 + 1) 0 ≤ 2)
        × (placed_from (length entries.old / 4 - come.num_renames) come.num_renames come.text_len entries.old ≡ true)
        × (length
        (merged_with list (kept_in (length entries.old / 4) come.num_renames come.text_len entries.old text.old))
        ≡ length entries.old / 4)
        × (length
        (texts_of
        (merged_with list (kept_in (length entries.old / 4) come.num_renames come.text_len entries.old text.old)))
        ≡ come.text_len + bytes_from (length entries.old / 4 - come.num_renames) come.num_renames entries.old) }
    ensures entries_after { entries.new
        ≡ sets entries.old 0
        (words_of
        (merged_with list.entry
        (kept_in (length entries.old / 4) come.num_renames come.text_len entries.old text.old))) }
    ensures text_after { text.new
        ≡ sets text.old 0
        (texts_of
        (merged_with list.entry
        (kept_in (length entries.old / 4) come.num_renames come.text_len entries.old text.old))) }
{
    let mut p = Place {
        to: 0,
        at: 0,
        next: come.num_renames,
        from: come.text_len,
    };
    for k in 0..list.notes.len() {
        p = put_file(entries, text, p, k, list);
    }
}

// Puts the names that a list gives to the renames that are kept; there is room for all that are counted.
#[tactic(auto, using(renames::proofs::Used::in_use))]
pub(crate) fn give(
    renames: RenamedFiles,
    counted: Counted,
    entries: &mut [u64],
    text: &mut [u8],
    list: NotedList<'_>,
)
    requires { (renames.num_renames * 4 ≤ length entries.old)
        × (bytes_from renames.num_renames 0 entries.old ≤ length text.old)
        × ((j : ℕ) → 0 ≤ j → j < 0 + renames.num_renames → get_or entries.old (j * 4 + 1) 0 ≤ 2)
        × (counted.stay ≡ kept_state (named_in list) renames entries.old)
        × ((counted.stay.num_renames + counted.come.num_renames) * 4 ≤ length entries.old)
        × (counted.stay.text_len + counted.come.text_len ≤ length text.old)
        × (length (merged_with list (renames_kept (named_in list) (renames_of renames entries.old text.old)))
        ≡ counted.stay.num_renames + counted.come.num_renames)
        × (length (texts_of (merged_with list (renames_kept (named_in list) (renames_of renames entries.old text.old))))
        ≡ counted.stay.text_len + counted.come.text_len) }
    ensures entries_after { entries.new
        ≡ sets entries.old 0
        (words_of
        (merged_with list.entry
        (renames_kept (named_in list.entry) (renames_of renames entries.old text.old)))) }
    ensures text_after { text.new
        ≡ sets text.old 0
        (texts_of
        (merged_with list.entry
        (renames_kept (named_in list.entry) (renames_of renames entries.old text.old)))) }
{
    let Counted { stay, come } = counted;
    let total = counted.total().num_renames;
    keep_texts(
        text,
        &entries[..renames.num_renames * ENTRY_WIDTH],
        list.notes,
    );
    keep_entries(
        &mut entries[..renames.num_renames * ENTRY_WIDTH],
        list.notes,
        come.text_len,
    );
    text.copy_within(..stay.text_len, come.text_len);
    entries.copy_within(
        ..stay.num_renames * ENTRY_WIDTH,
        come.num_renames * ENTRY_WIDTH,
    );
    merge(&mut entries[..total * ENTRY_WIDTH], text, come, list);
}
