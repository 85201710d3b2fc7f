// The core of `map_block`, from file_storage.rs: the slices of files that a block covers, put into three columns of
// numbers. `layout` finds where the slices begin and whether there is room, and gives them one after another; the code
// here stores them.
#![tactic(auto)]

ghost use Rattle.std.specs.Prelude.{◌≡◌, length};
ghost use Rattle.std.proofs.lemmas.List.Edits.{sets};
ghost use Rattle.types.specs.Refusals.{outcome};
ghost use Rattle.layout.specs.Mapping.{files_of, offsets_of, sizes_of};
ghost use Rattle.layout.specs.Start.{slices_from};
ghost use Rattle.blocks.specs.Block.{Mapped, map_block};

use layout::{Cursor, Window};
use tables::FileStorage;
use types::{PieceIndex, Refusal};

// Puts the slices from a cursor on into the columns' first places, and gives their number.
// Stays: three columns are what the C interface lends, and a slice is stored at one place of all three. The count comes
// out of the loop: `has_room` mostly tells room without counting the slices, and to count them first would walk the
// rows twice.
fn write_slices(
    rows: &[u64],
    at: Cursor,
    out_file: &mut [u64],
    out_offset: &mut [u64],
    out_size: &mut [u64],
) -> usize
    ensures value { result ≡ length (slices_from rows.now at) }
    ensures out_file_after { out_file.new
        ≡ sets out_file.old 0 (files_of (slices_from rows.now at)) }
    ensures out_offset_after { out_offset.new
        ≡ sets out_offset.old 0 (offsets_of (slices_from rows.now at)) }
    ensures out_size_after { out_size.new
        ≡ sets out_size.old 0 (sizes_of (slices_from rows.now at)) }
{
    let mut count = 0;
    for (n, slice) in at.slices(rows).enumerate() {
        lists::put(out_file, n, slice.file as u64);
        lists::put(out_offset, n, slice.offset);
        lists::put(out_size, n, slice.size);
        count = n + 1;
    }
    count
}

// The slices of a block of a piece, put into the columns' first places. The search for the first file begins with a
// window.
// Stays: three columns are what the C interface lends, and each is written from its first place on.
#[tactic(auto, using(crate::proofs::Columns::stopping))]
pub fn map_block_core(
    fs: FileStorage,
    rows: &[u64],
    window: Window,
    piece: PieceIndex,
    offset: i64,
    size: i64,
    out_file: &mut [u64],
    out_offset: &mut [u64],
    out_size: &mut [u64],
) -> Result<usize, Refusal>
    ensures { ◌≡◌ {A = Mapped}
        (record {
          says = outcome result;
          file = out_file.new;
          offset = out_offset.new;
          size = out_size.new;
        })
        (map_block fs rows.now window piece.0 offset size
        out_file.old out_offset.old out_size.old) }
{
    let from = layout::start_block(fs, rows, window, piece, offset, size)?;
    let room = out_file.len().min(out_offset.len().min(out_size.len()));
    if layout::has_room(rows, from, room) {
        return Ok(write_slices(rows, from, out_file, out_offset, out_size));
    }
    Err(Refusal::NoRoom)
}
