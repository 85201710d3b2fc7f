// Answers about pieces, and about files at offsets and pieces. They rely on the search, on `types` for signed numbers
// and on `rules`: each decides its refusals first. Those that search for a file begin with a window; the answer is the
// same for every window, on rows that lie end to end (proofs/Starting.antt).
ghost use Rattle.std.specs.Prelude.{◌≡◌, ◌/◌, ◌<◌, ◌≤◌, length, [], ◌∷◌, IfOk};
ghost use Rattle.types.specs.Refusals.{outcome};
ghost use Rattle.rules.specs.Bounds.{max_pieces};
ghost use Rattle.rules.specs.Questions.{num_pieces, answered, bad_piece_length, many_pieces, short, few_entries};
ghost use Rattle.rules.specs.Questions.{rows_are_held, piece_answer};
ghost use Rattle.rules.specs.Results.{piece_says, file_says, piece_range_says, file_range_says};
ghost use Rattle.layout.specs.Pieces.{piece_size2};
ghost use Rattle.layout.specs.private.Asked.{asked_says};
ghost use Rattle.layout.specs.Given.{num_pieces_given, last_piece_given, piece_range_given, file_range_given};
ghost use Rattle.layout.specs.Given.{piece_size_given, piece_size2_given};
ghost use Rattle.layout.specs.Given.{blocks_in_piece2_given, blocks_per_piece_given};
ghost use Rattle.layout.specs.Given.{file_at_offset_given, file_at_piece_given, last_file_at_piece_given};

use crate::asked::AskedPiece;
use crate::search::{file_of, find_near_within, partition_point};
use crate::window::Window;
use lists::div_ceil;
use rules::{
    DEFAULT_BLOCK_SIZE, Tests, ask_pieces, ask_set, count_pieces, holds_rows, is_bad_offset,
};
use tables::FileStorage;
use types::{FileIndex, FileIndexRange, PieceIndex, PieceIndexRange, Refusal, clamped};

// The piece that a question is about, or its refusal; `held` says whether the rows that it reads are there.
fn piece_in(fs: FileStorage, piece: PieceIndex, held: bool) -> Result<AskedPiece, Refusal>
    ensures answer { asked_says result ≡ piece_answer fs piece.0 held (λ p. p) }
    ensures same { IfOk result (λ a. a.fs ≡ fs) }
{
    Tests::of_piece(fs, piece, held).first_refusal()?;
    Ok(AskedPiece {
        fs,
        p: piece.get() as u32,
    })
}

// The size of a piece, cut where the next file begins: the first with an offset past the piece's start.
// Stays: public questions are lent each table by itself (docs/DECISIONS.md, Forms 10) and pass rows and window on to
// one search, here and below.
fn size2_of(asked: AskedPiece, rows: &[u64], window: Window) -> u64
    requires { asked.fs.num_files ≤ length rows.now / 8 }
    ensures value { result ≡ piece_size2 asked.fs rows.now window asked.p }
    ensures low { result ≤ 2147483647 }
{
    let files = asked.fs.num_files;
    let start = asked.start();
    let next = partition_point(&rows[..files * 8], window, start);
    if files <= next {
        return asked.size();
    }
    tables::offset_at(rows, next)
        .saturating_sub(start)
        .min(asked.fs.piece_length)
}

// How many pieces the set has, or the refusal of a question about them.
fn pieces_asked(fs: FileStorage) -> Result<u64, Refusal>
    ensures answer { outcome result
        ≡ answered (bad_piece_length fs ∷ many_pieces fs ∷ short (few_entries fs) ∷ []) (num_pieces fs) }
    ensures known { IfOk result (λ n. n ≤ max_pieces) }
{
    ask_pieces(fs)?;
    Ok(count_pieces(fs))
}

// How many pieces the set has.
pub fn num_pieces(fs: FileStorage) -> Result<i32, Refusal>
    ensures { outcome result ≡ num_pieces_given fs }
{
    Ok(types::signed32(pieces_asked(fs)?))
}

// The last piece, −1 where there is none.
pub fn last_piece(fs: FileStorage) -> Result<PieceIndex, Refusal>
    ensures { piece_says result ≡ last_piece_given fs }
{
    Ok(PieceIndex::last_of(pieces_asked(fs)?))
}

// All pieces.
pub fn piece_range(fs: FileStorage) -> Result<PieceIndexRange, Refusal>
    ensures { piece_range_says result ≡ piece_range_given fs }
{
    let n = pieces_asked(fs)?;
    Ok(PieceIndexRange {
        begin: PieceIndex::new(0),
        end: PieceIndex::new(n),
    })
}

// All files.
pub fn file_range(fs: FileStorage) -> Result<FileIndexRange, Refusal>
    ensures { file_range_says result ≡ file_range_given fs }
{
    ask_set(fs)?;
    Ok(FileIndexRange {
        begin: FileIndex::new(0),
        end: FileIndex::new(fs.num_files as u64),
    })
}

// The size of a piece: the piece length, but for the last.
pub fn piece_size(fs: FileStorage, piece: PieceIndex) -> Result<i32, Refusal>
    ensures { outcome result ≡ piece_size_given fs piece.0 }
{
    Ok(types::signed32(piece_in(fs, piece, true)?.size()))
}

// The size of a piece, cut where the next file begins.
pub fn piece_size2(
    fs: FileStorage,
    rows: &[u64],
    window: Window,
    piece: PieceIndex,
) -> Result<i32, Refusal>
    ensures { outcome result ≡ piece_size2_given fs rows.now window piece.0 }
{
    let asked = piece_in(fs, piece, holds_rows(fs, rows))?;
    Ok(types::signed32(size2_of(asked, rows, window)))
}

// How many blocks a piece has that is cut where the next file begins.
#[tactic(auto, using(crate::proofs::Sizes::blocks_le))]
pub fn blocks_in_piece2(
    fs: FileStorage,
    rows: &[u64],
    window: Window,
    piece: PieceIndex,
) -> Result<i32, Refusal>
    ensures { outcome result ≡ blocks_in_piece2_given fs rows.now window piece.0 }
{
    let asked = piece_in(fs, piece, holds_rows(fs, rows))?;
    let size = size2_of(asked, rows, window);
    Ok(types::signed32(div_ceil(size, DEFAULT_BLOCK_SIZE)))
}

// How many blocks a piece of full length has.
pub fn blocks_per_piece(fs: FileStorage) -> Result<i32, Refusal>
    ensures { outcome result ≡ blocks_per_piece_given fs }
{
    ask_set(fs)?;
    Ok(types::signed32(div_ceil(fs.piece_length, DEFAULT_BLOCK_SIZE)))
}

// The file at an offset.
pub fn file_index_at_offset(
    fs: FileStorage,
    rows: &[u64],
    window: Window,
    offset: i64,
) -> Result<FileIndex, Refusal>
    ensures { file_says result ≡ file_at_offset_given fs rows.now window offset }
{
    Tests {
        bad_range: is_bad_offset(fs, offset),
        ..Tests::of_set(fs, holds_rows(fs, rows))
    }
    .first_refusal()?;
    let rows = &rows[..fs.num_files * 8];
    Ok(FileIndex::new(find_near_within(rows, window, clamped(offset)) as u64))
}

// The file at the start of a piece.
pub fn file_index_at_piece(
    fs: FileStorage,
    rows: &[u64],
    window: Window,
    piece: PieceIndex,
) -> Result<FileIndex, Refusal>
    ensures { file_says result ≡ file_at_piece_given fs rows.now window piece.0 }
{
    let start = piece_in(fs, piece, holds_rows(fs, rows))?.start();
    Ok(FileIndex::new(file_of(fs, rows, window, start) as u64))
}

// The file at the last byte of a piece.
pub fn last_file_index_at_piece(
    fs: FileStorage,
    rows: &[u64],
    window: Window,
    piece: PieceIndex,
) -> Result<FileIndex, Refusal>
    ensures { file_says result ≡ last_file_at_piece_given fs rows.now window piece.0 }
{
    let asked = piece_in(fs, piece, holds_rows(fs, rows))?;
    let last = (asked.start() + asked.size()).saturating_sub(1);
    Ok(FileIndex::new(file_of(fs, rows, window, last) as u64))
}
