// Document 01's rows for questions, each a test, and whether a lent table is long enough. It relies on `types` for file
// and piece numbers, on `lists` for quotients, on `tables` for rows and on the laws of proofs/Deciding.antt.
ghost use Rattle.std.specs.Prelude.{◌≡◌, not, ◌&&◌, ◌||◌, ◌<◌, ltb, leb};
ghost use Rattle.tables.specs.Rows.{row_at};
ghost use Rattle.rules.specs.Bounds.{bad_length, is_negative, is_below, clamped_of, limit, max_pieces};
ghost use Rattle.rules.specs.Questions.{num_pieces, no_tree, bad_range, bad_offset, few_entries, row_there};
ghost use Rattle.rules.specs.Questions.{rows_are_held, roots_held, dirs_held, text_held};

use tables::{DIR_WIDTH, FileStorage, LentSet, ROOT_WIDTH, ROW_WIDTH, SIZE_RANGE};
use types::{FileIndex, PieceIndex, clamped};

// The largest size, offset and total: rows hold 48 bits of them.
pub const MAX_FILE_OFFSET: u64 = SIZE_RANGE - 1;

// The largest piece length, the most pieces, and the bytes of a block.
const MAX_PIECE_LENGTH: u64 = 2147483647;

pub const MAX_PIECES: u64 = 2147483647;

pub const DEFAULT_BLOCK_SIZE: u64 = 16384;

// The most files, and the most directories, of a set.
pub const MAX_ENTRIES: usize = 65535;

// Whether a piece length is out of range.
pub fn is_bad_length(piece_length: u64) -> bool
    ensures { result ≡ bad_length piece_length }
{
    !(1..=MAX_PIECE_LENGTH).contains(&piece_length)
}

// Whether a table of rows holds the files that the set counts.
// Stays: here and in the two below; one function of a count, a table and a width would have each caller name all three,
// and could be given the width of another table.
pub fn holds_rows(fs: FileStorage, rows: &[u64]) -> bool
    ensures { result ≡ rows_are_held fs rows.now }
{
    fs.num_files <= rows.len() / ROW_WIDTH
}

// Whether a table of roots holds those of the files that the set counts.
pub fn holds_roots(fs: FileStorage, roots: &[u8]) -> bool
    ensures { result ≡ roots_held fs roots.now }
{
    fs.num_files <= roots.len() / ROOT_WIDTH
}

// Whether a table of directories holds those that the set counts.
pub fn holds_dirs(fs: FileStorage, dirs: &[u64]) -> bool
    ensures { result ≡ dirs_held fs dirs.now }
{
    fs.num_paths <= dirs.len() / DIR_WIDTH
}

// Whether a text area holds the set's texts.
pub fn holds_text(fs: FileStorage, text: &[u8]) -> bool
    ensures { result ≡ text_held fs text.now }
{
    fs.text_len <= text.len()
}

// Whether the set counts no more files and directories than a set may have.
pub fn has_few_entries(fs: FileStorage) -> bool
    ensures { result ≡ few_entries fs }
{
    fs.num_files <= MAX_ENTRIES && fs.num_paths <= MAX_ENTRIES
}

// Whether lent tables are long enough, which `held` says, and the set has no more files and directories than it may.
pub fn are_held(fs: FileStorage, held: bool) -> bool
    ensures { result ≡ (held && few_entries fs) }
{
    held && has_few_entries(fs)
}

// Whether the lent tables hold what a set counts, and it has no more files and directories than it may.
pub fn holds_set(set: LentSet<'_>) -> bool
    ensures { result
        ≡ ((rows_are_held set.entry.fs set.entry.lent.rows.now
        && (dirs_held set.entry.fs set.entry.lent.dirs.now
        && text_held set.entry.fs set.entry.lent.text.now))
        && few_entries set.entry.fs) }
{
    let held = holds_rows(set.fs, set.lent.rows)
        && holds_dirs(set.fs, set.lent.dirs)
        && holds_text(set.fs, set.lent.text);
    are_held(set.fs, held)
}

// Whether row i is there.
pub fn is_there(rows: &[u64], i: usize) -> bool
    ensures { result ≡ row_there rows.now i }
{
    i < rows.len() / ROW_WIDTH
}

// How many pieces the set has.
pub fn count_pieces(fs: FileStorage) -> u64
    ensures { result ≡ num_pieces fs }
{
    lists::div_ceil(fs.total_size, fs.piece_length)
}

// Whether the set has more than k pieces: by a product where the length is in range, which costs less than
// a quotient.
// Stays: plan's `lacks_places` and layout's `high_of` multiply so too. Both require that the length is in range, which
// is tested here, and only plan's takes each k: one function for the three would make that test at each addition, and
// keep the product within 64 bits at each question.
#[tactic(auto, using(crate::proofs::Deciding::over_good))]
fn has_over(fs: FileStorage, k: u64) -> bool
    requires { k < 2147483648 }
    ensures { result ≡ ltb k (num_pieces fs) }
{
    if is_bad_length(fs.piece_length) {
        return k < count_pieces(fs);
    }
    k * fs.piece_length < fs.total_size
}

// Whether the set has too many pieces to be counted by an `i32`.
pub fn has_many(fs: FileStorage) -> bool
    ensures { result ≡ ltb max_pieces (num_pieces fs) }
{
    has_over(fs, MAX_PIECES)
}

// Whether the set has no file of that number.
pub fn is_no_file(fs: FileStorage, index: FileIndex) -> bool
    ensures { result ≡ not (is_below fs.num_files index.0) }
{
    index.within(fs.num_files).is_err()
}

// Whether the set has no piece of that number.
pub(crate) fn is_no_piece(fs: FileStorage, piece: PieceIndex) -> bool
    ensures { result ≡ not (is_below (num_pieces fs) piece.0) }
{
    piece.0.is_negative() || !has_over(fs, piece.get() as u64)
}

// Whether an offset is negative or past the limit, or its size is negative.
pub fn is_bad_range(offset: i64, size: i64) -> bool
    ensures { result ≡ (bad_range offset size).test }
{
    size.is_negative() || !(0..=MAX_FILE_OFFSET as i64).contains(&offset)
}

// Whether an offset is negative, past the limit or not below the total.
pub fn is_bad_offset(fs: FileStorage, offset: i64) -> bool
    ensures { result ≡ (bad_offset fs offset).test }
{
    is_bad_range(offset, 0) || fs.total_size <= clamped(offset)
}

// Whether file k has no tree: it is a nonempty pad, or a nonempty file off a piece start.
pub fn is_no_tree(fs: FileStorage, rows: &[u64], k: usize) -> bool
    ensures { result ≡ (no_tree fs (row_at rows.now k)).test }
{
    tables::size_at(rows, k) != 0
        && (tables::is_pad(tables::flags_at(rows, k))
            || lists::rem(tables::offset_at(rows, k), fs.piece_length) != 0)
}
