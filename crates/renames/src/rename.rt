// A set's renames: the record, an entry, and how an entry's text is read. It relies on `types` and `tables`.
ghost use Rattle.std.specs.Prelude.{◌≡◌};
ghost use Rattle.renames.specs.Renames.{mode_word, mode_of};

use tables::Span;
use types::FileIndex;

// How a rename's text is to be read: after the save path and the set's name, after the save path, or alone. An entry
// holds the mode as its number.
#[derive(Clone, Copy, PartialEq, Eq)]
pub enum RenameMode {
    FullPath = 0,
    NoRootPath = 1,
    AbsolutePath = 2,
}

// The word of a mode.
impl From<RenameMode> for u64 {
    ghost from_gives = { λ mode word. word ≡ mode_word mode };

    fn from(mode: RenameMode) -> u64 {
        mode as u64
    }
}

// The mode of a word.
// Stays: with `TryFrom` each reading of an entry would take a `Result` apart, though the entries were found in order
// before, their modes with them.
impl From<u64> for RenameMode {
    ghost from_gives = { λ word mode. mode ≡ mode_of word };

    fn from(word: u64) -> RenameMode {
        match word {
            0 => RenameMode::FullPath,
            1 => RenameMode::NoRootPath,
            _ => RenameMode::AbsolutePath,
        }
    }
}

// A rename: its file, its mode, and the span of its text in the renames' text area.
#[derive(Clone, Copy)]
pub struct Rename {
    pub file_index: FileIndex,
    pub mode: RenameMode,
    pub name: Span,
}

// The words of an entry: its file, its mode, the length of its text and where the text begins.
pub const ENTRY_WIDTH: usize = 4;

// The number of renames and the bytes of their texts. The entries and the text area are slices
// that the caller lends.
#[derive(Clone, Copy)]
pub struct RenamedFiles {
    pub num_renames: usize,
    pub text_len: usize,
}
