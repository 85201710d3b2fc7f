// The mapping of a block into a lent slice of records, which lie as C lays them: the file's number, four
// bytes that nothing reads, offset and size. Relies on `mapping`.
ghost use Rattle.std.specs.Prelude.{◌≡◌};
ghost use Rattle.layout.specs.Window.{window_for};
ghost use Rattle.mapping.specs.Table.{block_mapped};
ghost use Rattle.exports.specs.State.{storage_of};
ghost use Rattle.exports.specs.Layout.{SlicesReturned, slices_returned};

use crate::questions::count_returned;
use crate::{State, storage_at};
use types::{FileSlice, PieceIndex};

// `mapping::map_block`: the number of slices, or minus the number of the refusal.
// Stays: the C interface fixes the parameters and the answer.
pub fn niflathen_map_block_slices(
    state: &State,
    rows: &[u64],
    firsts: &[u16],
    piece: i32,
    offset: i64,
    size: i64,
    out: &mut [FileSlice],
) -> i64
    ensures { ◌≡◌ {A = SlicesReturned} (record { answer = result; table = out.new })
        (slices_returned
        (block_mapped (storage_of state.now) rows.now
        (window_for (storage_of state.now) firsts.now piece offset)
        piece offset size out.old)) }
{
    let fs = storage_at(state);
    count_returned(mapping::map_block(
        fs,
        rows,
        layout::window_for(fs, firsts, PieceIndex(piece), offset),
        PieceIndex(piece),
        offset,
        size,
        out,
    ))
}
