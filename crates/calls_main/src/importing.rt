// `import I :N I :N …`: the pairs of the line are read into columns, which are lent to the library with the
// set's places of the tables of renames. Relies on `imports` and `script`, and on the module for sets.
use crate::input::{Buffer, ROOM};
use crate::places::first_mut;
use crate::sets::{Call, Made, Set};

// The most pairs that a line has.
const MAX_PAIRS: usize = 16384;

// Imports names for files of a set; the names stand in a buffer, one after the other.
pub(crate) fn import(call: Call<'_>) -> Option<Made> {
    let Call { line, set, tables } = call;
    // Stays: `imports::import_filenames` is lent the numbers, and the lengths of the names, each as a slice.
    let mut files = [0i32; MAX_PAIRS];
    let mut lengths = [0u64; MAX_PAIRS];
    let mut names = [0u8; ROOM];
    let n = read_pairs(line, &mut files, &mut lengths, &mut names)?;
    let counts = set.counts;
    let res = imports::import_filenames(
        set.fs,
        set.held,
        first_mut(&mut tables.entries, counts.entries),
        first_mut(&mut tables.area, counts.area),
        lists::part(&files, 0, n),
        &lengths,
        &names,
    );
    Some(Made::from(res.map(|held| Set { held, ..set })))
}

// Reads the pairs after the call's name: the files, the lengths of the names, and the names one after the other; gives
// the number of pairs.
fn read_pairs(
    line: &[u8],
    files: &mut [i32; MAX_PAIRS],
    lengths: &mut [u64; MAX_PAIRS],
    names: &mut Buffer,
) -> Option<usize> {
    let mut rest = script::after(line, 0);
    let mut used = 0;
    for (n, (file, length)) in files.iter_mut().zip(lengths.iter_mut()).enumerate() {
        if script::word(rest, 0).is_empty() {
            return Some(n);
        }
        *file = script::to_i32(script::word(rest, 0))?;
        let end = script::decode(script::word(rest, 1), names, used)?;
        *length = end.saturating_sub(used) as u64;
        rest = script::after(rest, 1);
        used = end;
    }
    if !script::word(rest, 0).is_empty() {
        return None;
    }
    Some(MAX_PAIRS)
}
