// Opening. Whether a set keeps the first file of each piece in a table is decided here, and stands in its record.
ghost use Rattle.std.specs.Prelude.{◌≡◌, true, false};
ghost use Rattle.types.specs.Refusals.{outcome};
ghost use Rattle.storage.specs.Opening.{opened};

use tables::{FileStorage, Span};
use types::Refusal;

// A set without files, with that piece length; below 1 it is refusal 1.
// Each field of a new record is written out, so that a further one isn't left at a derived `Default` unseen.
fn open_with(piece_length: i32, indexed: bool) -> Result<FileStorage, Refusal>
    ensures { outcome result ≡ opened piece_length indexed }
{
    let piece_length = types::clamped(i64::from(piece_length));
    if piece_length == 0 {
        return Err(Refusal::InvalidPieceLength);
    }
    Ok(FileStorage {
        piece_length,
        v2: false,
        num_files: 0,
        num_paths: 0,
        num_symlinks: 0,
        name: Span::empty(),
        text_len: 0,
        total_size: 0,
        size_on_disk: 0,
        trimmed: false,
        indexed,
    })
}

// A set without files, with that piece length. It keeps no table of first files.
pub fn open(piece_length: i32) -> Result<FileStorage, Refusal>
    ensures { outcome result ≡ opened piece_length false }
{
    open_with(piece_length, false)
}

// The same of a set that keeps the first file of each piece in a table, which its additions are lent.
// Stays: both are calls of `open_with`; a flag as an argument would say less at a caller than the name.
pub fn open_indexed(piece_length: i32) -> Result<FileStorage, Refusal>
    ensures { outcome result ≡ opened piece_length true }
{
    open_with(piece_length, true)
}
