// The tables of a set, and how many places of each it is lent. Relies on `tables` for the widths of rows.
use renames::ENTRY_WIDTH;
use tables::{DIR_WIDTH, ROOT_WIDTH, ROW_WIDTH};

// The most files of a set.
pub(crate) const MAX_FILES: usize = 256;

// The most pieces whose first file a set notes.
pub(crate) const MAX_PIECES: usize = 1024;

// The most directories of a set.
pub(crate) const MAX_DIRS: usize = 256;

// The most bytes of a set's texts.
pub(crate) const MAX_TEXT: usize = 262144;

// The most renames of a set.
pub(crate) const MAX_RENAMES: usize = 256;

// The most bytes of the names in a set's renames.
pub(crate) const MAX_NAMES: usize = 65536;

// The tables that a set is lent the start of.
// Stays: there is no heap, so each has the most places that a set can have.
#[derive(Drop)]
pub(crate) struct Tables {
    pub rows: [u64; MAX_FILES * ROW_WIDTH],
    pub roots: [u8; MAX_FILES * ROOT_WIDTH],
    pub firsts: [u16; MAX_PIECES],
    pub dirs: [u64; MAX_DIRS * DIR_WIDTH],
    pub text: [u8; MAX_TEXT],
    pub entries: [u64; MAX_RENAMES * ENTRY_WIDTH],
    pub area: [u8; MAX_NAMES],
}

impl Tables {
    // Tables of zeros.
    pub(crate) fn new() -> Tables {
        Tables {
            rows: [0; MAX_FILES * ROW_WIDTH],
            roots: [0; MAX_FILES * ROOT_WIDTH],
            firsts: [0; MAX_PIECES],
            dirs: [0; MAX_DIRS * DIR_WIDTH],
            text: [0; MAX_TEXT],
            entries: [0; MAX_RENAMES * ENTRY_WIDTH],
            area: [0; MAX_NAMES],
        }
    }
}

// How many places of each table a set is lent: `entries` and `area` are those of its renames.
// Stays: a set is handed on by value and its tables are not, so the counts are the set's. The parts that are read are
// cut in one place, `Sets::asked`. Those that are changed are cut where a call lends them, two to five of the seven:
// from a record of all seven each would still be named there, and the record's making would come on top.
#[derive(Clone, Copy)]
pub(crate) struct Counts {
    pub rows: usize,
    pub roots: usize,
    pub firsts: usize,
    pub dirs: usize,
    pub text: usize,
    pub entries: usize,
    pub area: usize,
}

// The first n places of a table, or as many as there are, to be changed.
// Stays: `questions` lends its own room by the same two lines; a public function for both would promise, beside the
// part, what the table is after it is written through, and no caller needs that.
pub(crate) fn first_mut<T>(table: &mut [T], n: usize) -> &mut [T] {
    let to = n.min(table.len());
    &mut table[..to]
}
