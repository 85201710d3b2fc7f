// How much the lent tables hold, and whether that is what a set counts. Relies on `rules` and `tables`.
ghost use Rattle.std.specs.Prelude.{◌≡◌, length};
ghost use Rattle.change.specs.Rooms.{rooms_in, fit_in, holds_in};

use rules::MAX_ENTRIES;
use tables::{DIR_WIDTH, FileStorage, ROOT_WIDTH, ROW_WIDTH};

// How many files, directories and bytes of text the lent tables can hold.
#[derive(Clone, Copy)]
pub struct Rooms {
    pub files: usize,
    pub directories: usize,
    pub text: usize,
}

impl Rooms {
    // The rooms of lent tables.
    pub fn of(rows: &[u64], roots: &[u8], dirs: &[u64], text: &[u8]) -> Rooms
        ensures { result ≡ rooms_in (length rows.now) (length roots.now) (length dirs.now) (length text.now) }
    {
        Rooms {
            files: (rows.len() / ROW_WIDTH).min(roots.len() / ROOT_WIDTH),
            directories: dirs.len() / DIR_WIDTH,
            text: text.len(),
        }
    }

    // Whether a set may have so many files and directories: no more than 65535 of each, and what the tables can hold.
    pub fn fit(self, files: usize, dirs: usize) -> bool
        ensures { result ≡ fit_in self files dirs }
    {
        files <= MAX_ENTRIES.min(self.files) && dirs <= MAX_ENTRIES.min(self.directories)
    }
}

// Whether the lent tables hold what a set counts.
// Stays: `holds_rows` of `rules` and those beside it test the tables themselves. An addition asks of the counts after
// it too, for which `plan` has the rooms, so the test here is over lengths.
pub fn holds(fs: FileStorage, rooms: Rooms) -> bool
    ensures { result ≡ holds_in fs rooms }
{
    rooms.fit(fs.num_files, fs.num_paths) && fs.text_len <= rooms.text
}
