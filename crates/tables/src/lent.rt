// A set as a value that is passed on whole: the lent tables that hold its texts and say where they stand, and its
// record with them, for reading or for writing.
ghost use Rattle.std.specs.Prelude.{◌≡◌};
ghost use Rattle.tables.specs.Span.{text_at};
ghost use Rattle.tables.specs.Rows.{directory_span};
ghost use Rattle.tables.specs.Lending.{store_in, held};

use crate::rows::{Row, directory_of};
use crate::storage::FileStorage;

// Rows, directories and the text area.
#[derive(Clone, Copy)]
pub struct Lent<'a> {
    pub rows: &'a [u64],
    pub dirs: &'a [u64],
    pub text: &'a [u8],
}

impl<'a> Lent<'a> {
    // The text of a file's directory; no bytes for a single name and an absolute path.
    pub fn directory_of(self, row: Row) -> &'a [u8]
        ensures { result.now ≡ text_at self.entry.text.now (directory_span self.entry.dirs.now row) }
    {
        directory_of(self.dirs, self.text, row)
    }
}

// A set's record, and the tables that are lent with it.
#[derive(Clone, Copy)]
pub struct LentSet<'a> {
    pub fs: FileStorage,
    pub lent: Lent<'a>,
}

impl<'a> LentSet<'a> {
    // A set with its tables lent for reading.
    pub fn new(fs: FileStorage, rows: &'a [u64], dirs: &'a [u64], text: &'a [u8]) -> LentSet<'a>
        ensures { result
            ≡ record { fs = fs; lent = record { rows = rows.entry; dirs = dirs.entry; text = text.entry } } }
    {
        let lent = Lent { rows, dirs, text };
        LentSet { fs, lent }
    }
}

// A set's record, and the tables that are lent for writing with it.
#[derive(Drop)]
pub struct LentSetMut<'a> {
    pub fs: FileStorage,
    pub rows: &'a mut [u64],
    pub dirs: &'a mut [u64],
    pub text: &'a mut [u8],
}

impl LentSetMut<'_> {
    // The set with its tables lent for reading.
    pub fn read(&self) -> LentSet<'_>
        ensures { store_in result ≡ held self.now }
    {
        LentSet::new(self.fs, self.rows, self.dirs, self.text)
    }
}
