// The slices of a block one after another, from a cursor on. They rely on `tables` for the sizes of files and on the
// laws of proofs/Walk.antt.
ghost use Rattle.std.specs.Prelude.{◌≡◌};
ghost use Rattle.std.specs.Iterator.{YieldsFirst, item_count};
ghost use Rattle.layout.specs.Start.{slices_from, slices_left};

use crate::start::Cursor;

// A window of a file: `size` bytes from place `offset` on.
#[derive(Clone, Copy)]
pub struct Slice {
    pub file: usize,
    pub offset: u64,
    pub size: u64,
}

// The slices from a cursor on, of which none is empty.
#[derive(Drop)]
pub struct Slices<'a> {
    rows: &'a [u64],
    at: Cursor,
}

impl Cursor {
    // The slices from it on.
    pub fn slices(self, rows: &[u64]) -> Slices<'_>
        ensures { slices_left result ≡ slices_from rows.now self }
    {
        Slices { rows, at: self }
    }
}

impl Iterator for Slices<'_> {
    type Item = Slice;

    ghost next_gives = { YieldsFirst slices_left };

    ghost remaining = { item_count slices_left };

    #[tactic(auto, using(crate::proofs::Walk::next_slice))]
    fn next(&mut self) -> Option<Slice> {
        if self.at.left == 0 {
            return None;
        }
        let mut skip = self.at.skip;
        for file in self.at.file..self.at.files {
            let size = tables::size_at(self.rows, file);
            if skip < size {
                let part = (size - skip).min(self.at.left);
                self.at.file = file + 1;
                self.at.skip = 0;
                self.at.left -= part;
                return Some(Slice {
                    file,
                    offset: skip,
                    size: part,
                });
            }
            skip -= size;
        }
        None
    }
}
