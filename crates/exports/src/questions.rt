// The layout answers of the C interface: a block as three columns, `map_file` alone and for a list, and the file at an
// offset. A question that searches is lent the set's table of first files; of a set that keeps none nothing is looked
// at. Relies on `layout`, `files`, `blocks` and on the record that a set's words hold.
ghost use Rattle.std.specs.Prelude.{◌≡◌, pos, neg_ℤ};
ghost use Rattle.types.specs.Refusals.{number_of, outcome};
ghost use Rattle.rules.specs.Results.{file_says, request_says};
ghost use Rattle.blocks.specs.Block.{map_block};
ghost use Rattle.files.specs.Given.{file_mapped};
ghost use Rattle.files.specs.List.{files_mapped};
ghost use Rattle.layout.specs.Window.{window_for};
ghost use Rattle.layout.specs.Given.{file_at_offset_given};
ghost use Rattle.exports.specs.State.{storage_of};
ghost use Rattle.exports.specs.Layout.{count_returned, file_returned, request_returned};
ghost use Rattle.exports.specs.Layout.{BlockReturned, block_returned, ListReturned, list_returned};

use crate::{State, storage_at};
use types::{FileIndex, PeerRequest, PieceIndex, Refusal};

// Minus the number of a refusal.
fn refused(refusal: Refusal) -> i64
    ensures { result ≡ neg_ℤ (pos (number_of refusal)) }
{
    -i64::from(u32::from(refusal))
}

// A count, or minus the number of the refusal.
// Stays: the C interface returns numbers.
pub(crate) fn count_returned(answer: Result<usize, Refusal>) -> i64
    ensures { result ≡ count_returned (outcome answer) }
{
    answer.map_or_else(refused, |n| types::signed64(n as u64))
}

// The number of a file, or minus the number of the refusal.
// Stays: the C interface returns numbers.
fn file_returned(answer: Result<FileIndex, Refusal>) -> i64
    ensures { result ≡ file_returned (file_says answer) }
{
    answer.map_or_else(refused, |f| i64::from(f.0))
}

// A request of `map_file` as C has it: 0 and the request, or the number of the refusal and zeros.
// Stays: C gets a struct of numbers, and has no enum with values.
#[repr(C)]
#[derive(Drop)]
pub struct FileRequest {
    pub refusal: u32,
    pub piece: i32,
    pub start: i32,
    pub length: i32,
}

// The request of an answer, or the number of its refusal and zeros.
impl From<Result<PeerRequest, Refusal>> for FileRequest {
    ghost from_gives = { λ answer returned. returned ≡ request_returned (request_says answer) };

    fn from(answer: Result<PeerRequest, Refusal>) -> FileRequest {
        match answer {
            Ok(r) => FileRequest {
                refusal: 0,
                piece: r.piece.0,
                start: r.start,
                length: r.length,
            },
            Err(e) => FileRequest {
                refusal: u32::from(e),
                piece: 0,
                start: 0,
                length: 0,
            },
        }
    }
}

// `blocks::map_block_core`: the number of slices, or minus the number of the refusal.
// Stays: the C interface fixes the parameters and the answer.
pub fn niflathen_map_block(
    state: &State,
    rows: &[u64],
    firsts: &[u16],
    piece: i32,
    offset: i64,
    size: i64,
    out_file: &mut [u64],
    out_offset: &mut [u64],
    out_size: &mut [u64],
) -> i64
    ensures { ◌≡◌ {A = BlockReturned}
        (record {
          answer = result;
          file = out_file.new;
          offset = out_offset.new;
          size = out_size.new;
        })
        (block_returned
        (map_block (storage_of state.now) rows.now
        (window_for (storage_of state.now) firsts.now piece offset) piece offset size
        out_file.old out_offset.old out_size.old)) }
{
    let fs = storage_at(state);
    count_returned(blocks::map_block_core(
        fs,
        rows,
        layout::window_for(fs, firsts, PieceIndex(piece), offset),
        PieceIndex(piece),
        offset,
        size,
        out_file,
        out_offset,
        out_size,
    ))
}

// `layout::file_index_at_offset`: the file's number, or minus the number of the refusal.
// Stays: the C interface fixes the parameters and the answer.
pub fn niflathen_file_index_at_offset(
    state: &State,
    rows: &[u64],
    firsts: &[u16],
    offset: i64,
) -> i64
    ensures { result ≡
        file_returned
        (file_at_offset_given (storage_of state.now) rows.now
        (window_for (storage_of state.now) firsts.now (pos 0) offset) offset) }
{
    let fs = storage_at(state);
    file_returned(layout::file_index_at_offset(
        fs,
        rows,
        layout::window_for(fs, firsts, PieceIndex(0), offset),
        offset,
    ))
}

// `files::map_file`: the request, or the number of the refusal. Arguments and answer go in registers.
// Stays: the C interface fixes the parameters and the answer.
pub fn niflathen_map_file(
    state: &State,
    rows: &[u64],
    index: i32,
    offset: i64,
    size: i32,
) -> FileRequest
    ensures { result ≡
        request_returned (file_mapped (storage_of state.now) rows.now index offset size) }
{
    FileRequest::from(files::map_file(storage_at(state), rows, FileIndex(index), offset, size))
}

// `files::map_files`: the number of questions, or minus the number of the refusal.
// Stays: the C interface fixes the parameters and the answer.
pub fn niflathen_map_files(
    state: &State,
    rows: &[u64],
    files: &[i32],
    offsets: &[i64],
    sizes: &[i32],
    answers: &mut [u32],
) -> i64
    ensures { ◌≡◌ {A = ListReturned} (record { answer = result; answers = answers.new })
        (list_returned
        (files_mapped (storage_of state.now) rows.now files.now offsets.now
        sizes.now answers.old)) }
{
    count_returned(files::map_files(storage_at(state), rows, files, offsets, sizes, answers))
}
