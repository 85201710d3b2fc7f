// Notes of a list of names, a cell for each file of the set: the last number that names it, and where its name begins.
// So a question about a file or about a number is one read. Relies on the laws of proofs/Noting.antt.
ghost use Rattle.std.specs.Prelude.{◌≡◌, ◌&&◌, cond, eqb, ◌+◌, ◌<◌, ◌≤◌, ◌^◌, length, get_or, set, take};
ghost use Rattle.lists.specs.Lists.{sum};
ghost use Rattle.rules.specs.Bounds.{clamped_of, is_below};
ghost use Rattle.imports.specs.private.Merging.{noted_from, placed_from, is_noted};

use types::FileIndex;

// Writes a value to the cell of a file, if it has one.
// Stays: a cell is a word, 0 where no number names the file: 65536 cells stand on the stack, and an `Option` would take
// twice the memory.
fn note(notes: &mut [u64], file: FileIndex, value: u64)
    ensures { notes.new
        ≡ cond (is_below (length notes.old) file.0) (set notes.old (clamped_of file.0) value) notes.old }
{
    if let Ok(k) = file.within(notes.len()) {
        lists::put(notes, k, value);
    }
}

// Notes for each file the last number that names it, counted from 1.
pub(crate) fn note_last(notes: &mut [u64], numbers: &[i32])
    ensures { notes.new ≡ noted_from 0 numbers.now notes.old }
{
    for (i, number) in numbers.iter().enumerate() {
        note(notes, FileIndex(*number), (i + 1) as u64);
    }
}

// Notes for each file where the name of the last number that names it begins.
pub(crate) fn note_places(places: &mut [u64], numbers: &[i32], lengths: &[u64])
    requires { (length numbers.now ≤ length lengths.now)
        × (sum (take (length numbers.now) lengths.now) < 2 ^ 64) }
    ensures { places.new
        ≡ placed_from 0 numbers.now lengths.now places.old }
{
    let mut at: u64 = 0;
    for (number, length) in numbers.iter().zip(lengths) {
        note(places, FileIndex(*number), at);
        at += *length;
    }
}

// Whether there is a note of a file.
pub(crate) fn is_noted(notes: &[u64], file: u64) -> bool
    ensures { result ≡ is_noted notes.now file }
{
    lists::item_or(notes, file as usize, 0) != 0
}

// Whether number i, counted from 0, is the last that names a file.
pub(crate) fn is_last(notes: &[u64], file: FileIndex, i: usize) -> bool
    requires { i + 1 < 2 ^ 64 }
    ensures { result
        ≡ is_below (length notes.now) file.0 && eqb (get_or notes.now (clamped_of file.0) 0) (i + 1) }
{
    file.within(notes.len())
        .is_ok_and(|k| lists::item_or(notes, k, 0) == (i + 1) as u64)
}
