// Where the first slice of a block begins, or why the block is refused, and whether a table has a place for each slice:
// what a caller tests before it takes the slices from slices.rt. It relies on the search and on slices.rt.
ghost use Rattle.std.specs.Prelude.{◌≡◌, length, nat_le};
ghost use Rattle.types.specs.Refusals.{outcome};
ghost use Rattle.layout.specs.Start.{slices_from, block_start};

use crate::asked::AskedPiece;
use crate::search::file_of;
use crate::window::Window;
use rules::{Tests, holds_rows, is_bad_range};
use tables::FileStorage;
use types::{PieceIndex, Refusal, clamped};

// Where the bytes still to map begin: place `skip` of file `file` of `files`; `left` is how many they are.
// Stays: `files` goes with the place and not with the rows: callers hold the whole table, also one longer than the set.
#[derive(Clone, Copy)]
pub struct Cursor {
    pub file: usize,
    pub files: usize,
    pub skip: u64,
    pub left: u64,
}

// How many slices there are from a cursor on.
#[tactic(auto, using(crate::proofs::Walk::walk_files))]
pub(crate) fn count_slices(rows: &[u64], at: Cursor) -> usize
    ensures { result ≡ length (slices_from rows.now at) }
{
    at.slices(rows).count()
}

// Whether a table with `room` places has one for each slice. No slice is empty and no file has two, so the slices are
// counted only where there are more files and more bytes than places.
// Stays: `room` counts the places of another table, and not the rows.
#[tactic(auto, using(crate::proofs::Walk::walk_files, crate::proofs::Walk::walk_bytes))]
pub fn has_room(rows: &[u64], at: Cursor, room: usize) -> bool
    ensures { result ≡ nat_le (length (slices_from rows.now at)) room }
{
    at.files <= room || at.left <= room as u64 || count_slices(rows, at) <= room
}

// The start of a block of a piece. The compiler takes it into both forms of `map_block`, for which it is a little too
// large without the word (a cost of 285, the limit is 250): a call costs 3 ns of 20.
// Stays: the piece length is tested before the other rules, and again among them: where it is in range, nothing is left
// of the quotient by which `Tests::of_piece` counts the pieces of any other, and a block costs 1 ns less.
// Stays: the offset of the file found is taken from its word. `tables::offset_at` tests first that the row's number can
// be multiplied, which costs 1 ns.
// Stays: no record of piece, offset and size: the three come from a call of document 01's, one rule tests that the
// piece is there, another the offset and the size, and only this function reads all.
#[inline(always)]
#[tactic(auto, using(crate::proofs::Starts::starting, types::proofs::Boundary::negative_is))]
pub fn start_block(
    fs: FileStorage,
    rows: &[u64],
    window: Window,
    piece: PieceIndex,
    offset: i64,
    size: i64,
) -> Result<Cursor, Refusal>
    ensures { outcome result ≡ block_start fs rows.now window piece.0 offset size }
{
    if rules::is_bad_length(fs.piece_length) {
        return Err(Refusal::InvalidPieceLength);
    }
    let bad_range = is_bad_range(offset, size);
    Tests {
        bad_range,
        ..Tests::of_piece(fs, piece, holds_rows(fs, rows))
    }
    .first_refusal()?;
    let asked = AskedPiece {
        fs,
        p: piece.get() as u32,
    };
    let target = asked.start() + clamped(offset);
    let file = file_of(fs, rows, window, target);
    Ok(Cursor {
        file,
        files: fs.num_files,
        skip: target.saturating_sub(lists::item_or(rows, file * 8, 0) % tables::SIZE_RANGE),
        left: clamped(size).min(fs.total_size.saturating_sub(target)),
    })
}
