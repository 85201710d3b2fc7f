// The renames that are kept and the names that a list gives, as they are counted before both are written. Relies on
// `renames` for the records of renames.
ghost use Rattle.std.specs.Prelude.{◌≡◌, ◌+◌, ◌/◌, ◌≤◌, ◌<◌, ◌^◌, length};
ghost use Rattle.imports.specs.private.Importing.{is_full};

use renames::{ENTRY_WIDTH, LentRenames, RenamedFiles};

// The record of the renames that stay, and that of the names that come.
#[derive(Clone, Copy)]
pub(crate) struct Counted {
    pub stay: RenamedFiles,
    pub come: RenamedFiles,
}

impl Counted {
    // Whether the tables of `held` are too short for both.
    pub(crate) fn is_full(self, held: LentRenames<'_>) -> bool
        requires { (self.stay.num_renames ≤ length held.entries.now / 4) × (self.stay.text_len ≤ length held.text.now) }
        ensures { result ≡ is_full (length held.entry.entries.now) (length held.entry.text.now) self }
    {
        held.entries.len() / ENTRY_WIDTH - self.stay.num_renames < self.come.num_renames
            || held.text.len() - self.stay.text_len < self.come.text_len
    }

    // The record of both.
    pub(crate) fn total(self) -> RenamedFiles
        requires { (self.stay.num_renames + self.come.num_renames < 2 ^ 64)
            × (self.stay.text_len + self.come.text_len < 2 ^ 64) }
        ensures { result
            ≡ record {
              num_renames = self.stay.num_renames + self.come.num_renames;
              text_len = self.stay.text_len + self.come.text_len;
            } }
    {
        RenamedFiles {
            num_renames: self.stay.num_renames + self.come.num_renames,
            text_len: self.stay.text_len + self.come.text_len,
        }
    }
}
