// The file whose pieces a question is about, once no refusal is due. It relies on `tables` for its row, and on what
// `layout` knows of a set that has few pieces.
ghost use Rattle.std.specs.Prelude.{◌≡◌, ◌<◌};
ghost use Rattle.tables.specs.Rows.{row_at};
ghost use Rattle.layout.specs.private.Deciding.{FewPieces};

use tables::FileStorage;

// File k of a set. The set has few pieces, and the file is one of its.
#[derive(Clone, Copy)]
pub(crate) struct AskedFile<'a> {
    pub fs: FileStorage,
    pub rows: &'a [u64],
    pub k: usize,
    ghost few: { FewPieces fs },
    ghost among: { k < fs.num_files },
}

impl AskedFile<'_> {
    // Where its bytes begin.
    // Stays: this and the next each read one word of its row; a `Row` by value would be made of all eight.
    pub(crate) fn offset(self) -> u64
        ensures { result ≡ (row_at self.entry.rows.now self.entry.k).offset }
    {
        tables::offset_at(self.rows, self.k)
    }

    // How many bytes it has.
    // Stays: `offset` reads another word; a function for both would be told which, and that is the whole body.
    pub(crate) fn size(self) -> u64
        ensures { result ≡ (row_at self.entry.rows.now self.entry.k).size }
    {
        tables::size_at(self.rows, self.k)
    }
}
