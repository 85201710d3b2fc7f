// `map_block`, from file_storage.rs: the slices of files that a block covers, put into a lent slice of
// `FileSlice`. `layout` finds where the slices begin and whether there is room, and gives them one after another; the
// code here stores them.
#![tactic(auto)]

ghost use Rattle.std.specs.Prelude.{◌≡◌, ◌<◌, ◌≤◌, ◌^◌, length, map};
ghost use Rattle.std.proofs.lemmas.List.Edits.{sets};
ghost use Rattle.types.specs.Refusals.{outcome};
ghost use Rattle.layout.specs.Start.{slices_from};
ghost use Rattle.mapping.specs.Table.{record_of, Filled, block_mapped};

use layout::{Cursor, Slice, Window};
use tables::FileStorage;
use types::{FileIndex, FileSlice, PieceIndex, Refusal};

// A slice as a record of signed numbers.
// Stays: `From` must take every slice, and this one asks that its numbers are below 2^63, as `signed_request` of files
// asks for numbers that an `i32` holds.
fn record_of(slice: Slice) -> FileSlice
    requires { (slice.offset < 2 ^ 63) × (slice.size < 2 ^ 63) }
    ensures { result ≡ record_of slice }
{
    FileSlice {
        file_index: FileIndex::new(slice.file as u64),
        offset: types::signed64(slice.offset),
        size: types::signed64(slice.size),
    }
}

// Puts the slices from a cursor on into the table's first places, and gives their number.
// Stays: the count comes out of the loop, as in `write_slices` of blocks. The places are counted by `enumerate`: after
// a loop over `out.iter_mut().zip(..)` only the table's length is known (files/list.rt).
fn write_slices(rows: &[u64], at: Cursor, out: &mut [FileSlice]) -> usize
    requires { length (slices_from rows.now at) ≤ length out.old }
    ensures value { result ≡ length (slices_from rows.now at) }
    ensures out_after { out.new ≡ sets out.old 0 (map record_of (slices_from rows.now at)) }
{
    let mut count = 0;
    for (n, slice) in at.slices(rows).enumerate() {
        out[n] = record_of(slice);
        count = n + 1;
    }
    count
}

// The slices of a block of a piece, put into the table's first places. The search for the first file begins with a
// window.
// Stays: `map_block` of document 01 is asked by a piece, an offset and a size, and fills a table that is lent.
#[tactic(auto, using(crate::proofs::Outcomes::stopping))]
pub fn map_block(
    fs: FileStorage,
    rows: &[u64],
    window: Window,
    piece: PieceIndex,
    offset: i64,
    size: i64,
    out: &mut [FileSlice],
) -> Result<usize, Refusal>
    ensures { ◌≡◌ {A = Filled}
        (record { says = outcome result; table = out.new })
        (block_mapped fs rows.now window piece.0 offset size out.old) }
{
    let from = layout::start_block(fs, rows, window, piece, offset, size)?;
    if layout::has_room(rows, from, out.len()) {
        return Ok(write_slices(rows, from, out));
    }
    Err(Refusal::NoRoom)
}
