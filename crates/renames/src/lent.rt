// A set's renames as a value that is passed on whole. Relies on the record of rename.rt.
ghost use Rattle.std.specs.Prelude.{◌≡◌};

use crate::rename::RenamedFiles;

// The record of the renames, and the tables that are lent with it.
#[derive(Clone, Copy)]
pub struct LentRenames<'a> {
    pub renames: RenamedFiles,
    pub entries: &'a [u64],
    pub text: &'a [u8],
}

impl<'a> LentRenames<'a> {
    // A set's renames with their tables lent for reading.
    pub fn new(renames: RenamedFiles, entries: &'a [u64], text: &'a [u8]) -> LentRenames<'a>
        ensures { result ≡ record { renames = renames; entries = entries.entry; text = text.entry } }
    {
        LentRenames {
            renames,
            entries,
            text,
        }
    }
}
