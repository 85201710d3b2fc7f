// Whether the lent tables of renames hold what the record counts, and are in order. Relies on the laws of
// proofs/Ordered.antt, proofs/Placed.antt and proofs/Used.antt.
ghost use Rattle.std.specs.Prelude.{◌&&◌, ◌≡◌, ◌/◌, ◌<◌, ◌^◌, leb, length};
ghost use Rattle.renames.specs.Renames.{ordered_from, placed_from, renames_held, in_order_in, in_order};
ghost use Rattle.renames.specs.private.Slots.{bytes_from};

use crate::lent::LentRenames;
use crate::rename::{ENTRY_WIDTH, RenamedFiles};

// Whether an entry is in order: its number is at least `least` and has 31 bits, its mode is one of three, and its text
// has at most `left` bytes.
fn is_entry_in_order(file: u64, mode: u64, len: u64, least: u64, left: usize) -> bool
    ensures { result ≡ ((leb least file && leb file 2147483647) && (leb mode 2 && leb len left)) }
{
    least <= file && file <= 2147483647 && mode <= 2 && len <= left as u64
}

// Whether the entries in use are in order and their texts have `len` bytes together.
// Stays: `len` counts bytes of the texts, and no entries.
#[tactic(auto, using(crate::proofs::Ordered::turns))]
fn are_in_order(entries: &[u64], len: usize) -> bool
    ensures { result ≡ ordered_from (length entries.now / 4) 0 0 len entries.now }
{
    let mut least: u64 = 0;
    let mut left = len;
    for entry in entries.chunks_exact(ENTRY_WIDTH) {
        let file = entry[0];
        let size = entry[2];
        if !is_entry_in_order(file, entry[1], size, least, left) {
            return false;
        }
        least = file + 1;
        left -= size as usize;
    }
    left == 0
}

// Whether the texts of the entries in use begin one where the other ends.
#[tactic(auto, using(crate::proofs::Placed::turns))]
fn are_placed(entries: &[u64]) -> bool
    requires { bytes_from (length entries.now / 4) 0 entries.now < 2 ^ 64 }
    ensures { result ≡ placed_from (length entries.now / 4) 0 0 entries.now }
{
    let mut at = 0;
    for entry in entries.chunks_exact(ENTRY_WIDTH) {
        if entry[3] != at {
            return false;
        }
        at += entry[2];
    }
    true
}

// Whether the lent tables hold what the record counts; `room` is the length of the text area.
// Stays: `find_rename`, which is public, is given the area's length and no area.
pub(crate) fn is_held(renames: RenamedFiles, entries: &[u64], room: usize) -> bool
    ensures { result ≡ renames_held renames entries.now room }
{
    renames.num_renames <= entries.len() / ENTRY_WIDTH && renames.text_len <= room
}

// Whether they also are in order.
// Stays: it is public, and promises its answer for every length of a text area; the method below serves those who hold
// the area.
#[tactic(auto, using(crate::proofs::Used::in_use))]
pub fn is_in_order(renames: RenamedFiles, entries: &[u64], room: usize) -> bool
    ensures { result ≡ in_order_in renames entries.now room }
{
    if !is_held(renames, entries, room) {
        return false;
    }
    let entries = &entries[..renames.num_renames * ENTRY_WIDTH];
    are_in_order(entries, renames.text_len) && are_placed(entries)
}

impl LentRenames<'_> {
    // The same of a record with its tables.
    pub fn is_in_order(self) -> bool
        ensures { result ≡ in_order self.entry.renames self.entry.entries.now self.entry.text.now }
    {
        is_in_order(self.renames, self.entries, self.text.len())
    }
}
