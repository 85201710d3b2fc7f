// A file's number as 64 bits. It relies on `types`.
ghost use Rattle.std.specs.Prelude.{◌≡◌};
ghost use Rattle.std.specs.Int.{w64};
ghost use Rattle.std.proofs.Common.{of_z};

use types::FileIndex;

// The 64 bits of a file's number: a negative one counts back from 2^64, past the files of every set that a table of
// rows holds.
// Stays: `FileIndex::within` gives the number or a refusal, which `map_file` would take apart before its other tests;
// there all tests stand before the answer, and the number of a refusal is told after them. `usize::try_from` with
// `unwrap_or(usize::MAX)` is as long, and its contract would tell two cases apart where this is one equation.
pub(crate) fn file_or_past(index: FileIndex) -> usize
    ensures { result ≡ of_z w64 index.0 }
{
    i64::from(index.0).cast_unsigned() as usize
}
