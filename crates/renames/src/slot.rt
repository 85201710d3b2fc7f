// The slot of a file's rename in the lent tables: where it stands, or would stand. Relies on the total accessors of
// `lists` and on the laws of proofs/Chunks.antt, proofs/Slots.antt and proofs/Used.antt.
ghost use Rattle.std.specs.Prelude.{◌≡◌, ◌+◌, ◌-◌, ◌*◌, ◌/◌, ◌≤◌, ◌<◌, ◌^◌, length, get_or};
ghost use Rattle.renames.specs.Finding.{entry_sought, entry_is_named};
ghost use Rattle.renames.specs.private.Slots.{bytes_from, slot_at, slot_of, with_places};

use crate::rename::ENTRY_WIDTH;

// The entry of a rename, the number of entries that it has already (one or none), the position of its text, and the
// bytes of text that it has already.
// Stays: `same` and `old` are taken off the counts of entries and of bytes, and multiplied; with an `Option` of the old
// bytes, each of these sums would first turn it into the two numbers.
#[derive(Clone, Copy)]
pub(crate) struct Slot {
    pub entry: usize,
    pub same: usize,
    pub at: usize,
    pub old: usize,
}

// The entry at which the search for a file's number ends, by halves.
// Stays: `partition_point` of std says what it finds only where the numbers ascend, and a question is answered whatever
// the table holds.
#[tactic(auto, using(crate::proofs::Halves::turns))]
pub(crate) fn entry_sought(entries: &[u64], file: u64) -> usize
    ensures { result ≡ entry_sought (length entries.now / 4) file entries.now }
{
    let mut first = 0;
    let mut count = entries.len() / ENTRY_WIDTH;
    while 0 < count {
        let half = count / 2;
        if entries[(first + half) * ENTRY_WIDTH] < file {
            first += half + 1;
            count -= half + 1;
        } else {
            count = half;
        }
    }
    first
}

// The bytes of text that entries have together.
// Stays: that the lengths sum to less than 2^64 is asked here and of all that sum them, in check.rt too; a type of
// entries with that bound would be made in each caller from the test that the tables are in order.
pub(crate) fn bytes_of(entries: &[u64]) -> usize
    requires { bytes_from (length entries.now / 4) 0 entries.now < 2 ^ 64 }
    ensures { result ≡ bytes_from (length entries.now / 4) 0 entries.now }
{
    entries
        .chunks_exact(ENTRY_WIDTH)
        .map(|entry| entry[2] as usize)
        .sum()
}

// The number of entry i, 0 past the end.
// Stays: it reads a last entry that is cut off too, which `chunks_exact` passes over; the test keeps 4 i from overflow.
fn number_at(entries: &[u64], i: usize) -> u64
    ensures { result ≡ get_or entries.now (i * 4) 0 }
{
    if i < entries.len() {
        lists::item_or(entries, i * ENTRY_WIDTH, 0)
    } else {
        0
    }
}

// Whether entry i is one of n, and has the number `file`.
// Stays: it is public, and no public function may promise less than it did: here an answer for every n, also for one
// that is larger than the table's count.
pub fn is_named(entries: &[u64], n: usize, file: u64, i: usize) -> bool
    ensures { result ≡ entry_is_named n file i entries.now }
{
    i < n && number_at(entries, i) == file
}

// The slot of a file whose rename stands at entry i of those in use, or would stand there.
#[tactic(auto, using(crate::proofs::Used::in_use))]
fn slot_at(entries: &[u64], file: u64, i: usize) -> Slot
    requires { (i ≤ length entries.now / 4) × (bytes_from i 0 entries.now < 2 ^ 64) }
    ensures { result ≡ slot_at (length entries.now / 4) file i entries.now }
{
    let at = bytes_of(&entries[..i * ENTRY_WIDTH]);
    let (same, old) = if is_named(entries, entries.len() / ENTRY_WIDTH, file, i) {
        (1, entries[i * ENTRY_WIDTH + 2] as usize)
    } else {
        (0, 0)
    };
    Slot {
        entry: i,
        same,
        at,
        old,
    }
}

// The slot of a file among the entries in use.
#[tactic(auto, using(crate::proofs::Halves::sought_le, crate::proofs::Slots::bytes_first))]
pub(crate) fn slot_of(entries: &[u64], file: u64) -> Slot
    requires { bytes_from (length entries.now / 4) 0 entries.now < 2 ^ 64 }
    ensures { result ≡ slot_of (length entries.now / 4) file entries.now }
{
    slot_at(entries, file, entry_sought(entries, file))
}

// Writes where the texts of the entries from `first` up to `end` begin, the first at byte `at`.
// Stays: a loop over `chunks_exact_mut` would leave only the table's length known.
pub(crate) fn place_texts(entries: &mut [u64], first: usize, end: usize, at: usize)
    requires { (first ≤ end) × (end ≤ length entries.old / 4)
        × (at + bytes_from (end - first) first entries.old < 2 ^ 64) }
    ensures { entries.new ≡ with_places (end - first) first at entries.old }
{
    let mut begin = at as u64;
    for i in first..end {
        entries[i * ENTRY_WIDTH + 3] = begin;
        begin += entries[i * ENTRY_WIDTH + 2];
    }
}
