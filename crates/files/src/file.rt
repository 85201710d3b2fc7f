// Answers about files' pieces, blocks and trees, and `map_file`. They rely on `merkle` for the nodes, on `types` for
// signed numbers and on `rules`: each decides its refusals first.
ghost use Rattle.std.specs.Prelude.{◌≡◌, ◌+◌, ◌*◌, ◌/◌, ◌%◌, ◌^◌, ◌<◌, ◌≤◌, ◌&&◌, ◌==◌};
ghost use Rattle.std.specs.Prelude.{false, true, not, [], ◌∷◌, length, pos, IfOk};
ghost use Rattle.types.specs.Refusals.{number_of, outcome};
ghost use Rattle.lists.specs.Lists.{ceiling};
ghost use Rattle.tables.specs.Rows.{row_at};
ghost use Rattle.merkle.specs.Width.{has_tree};
ghost use Rattle.rules.specs.Rules.{when, first_of};
ghost use Rattle.rules.specs.Bounds.{clamped_of};
ghost use Rattle.rules.specs.Questions.{row_there, bad_piece_length, no_file, many_pieces, no_tree, short, few_entries};
ghost use Rattle.rules.specs.Questions.{rows_are_held, answered, file_pieces_answer};
ghost use Rattle.rules.specs.Results.{piece_says, file_says};
ghost use Rattle.rules.specs.Results.{range_numbers, piece_range_says, number_range_says, request_says};
ghost use Rattle.files.specs.Request.{request_at, file_start};
ghost use Rattle.files.specs.Given.{piece_at_file_given, last_piece_at_file_given, exclusive_given, inclusive_given};
ghost use Rattle.files.specs.Given.{file_num_pieces_given, file_piece_range_given, file_num_blocks_given};
ghost use Rattle.files.specs.Given.{no_node, node_given, first_piece_node_given, first_block_node_given};
ghost use Rattle.files.specs.Given.{file_for_root_given, file_mapped};
ghost use Rattle.files.specs.private.Deciding.{asked_says, request_of, set_rules, position_rules};
ghost use Rattle.files.specs.Files.{last_quotient, low31, after_quotient, blocks_of, root_from};
ghost use Rattle.files.specs.Files.{position_of, exclusive_begin, end_or_begin, exclusive_end};
ghost use Rattle.files.specs.Files.{exclusive_range, inclusive_range};

use crate::asked::AskedFile;
use crate::number::file_or_past;
use lists::{div, div_ceil};
use rules::{
    DEFAULT_BLOCK_SIZE, Tests, are_held, count_pieces, has_many, holds_roots, holds_rows,
    is_bad_length, is_bad_range, is_no_tree,
};
use tables::{FileStorage, ROW_WIDTH, SIZE_RANGE, Sha256Hash};
use types::{FileIndex, I32Range, PeerRequest, PieceIndex, PieceIndexRange, Refusal, clamped};

// A request in unsigned numbers.
#[derive(Clone, Copy)]
pub(crate) struct UnsignedRequest {
    piece: u64,
    start: u64,
    length: u64,
}

// The number of blocks of file k.
fn blocks_of(rows: &[u64], k: usize) -> u64
    ensures { result ≡ blocks_of rows.now k }
{
    div_ceil(tables::size_at(rows, k), DEFAULT_BLOCK_SIZE)
}

// One more than `(n - 1) / d` toward zero: 0 where n is 0 and d is 1.
fn after_quotient(n: u64, d: u64) -> u64
    ensures { result ≡ after_quotient n d }
{
    if n == 0 {
        return u64::from(d != 1);
    }
    div(n - 1, d) + 1
}

// `(n - 1) / d` toward zero, as a piece: −1 where n is 0 and d is 1.
fn last_quotient(n: u64, d: u64) -> PieceIndex
    ensures { result.0 ≡ low31 (last_quotient n d) }
{
    PieceIndex::last_of(after_quotient(n, d))
}

// Position `at` as its piece and its start in that piece. A piece length that is a power of two, as most are, cuts by a
// shift.
// Stays: `lists::div` and `lists::rem` would each test the length again, in a question that is as short as that.
fn cut_at(at: u64, piece_length: u64) -> (u64, u64)
    requires { 0 < piece_length }
    ensures { (result.0 ≡ at / piece_length) × (result.1 ≡ at % piece_length) }
{
    match lists::exponent(piece_length) {
        Some(bits) => (at >> bits, at % (1 << bits)),
        None => (at / piece_length, at % piece_length),
    }
}

// The piece and the start of position `at` of the set's bytes, and how many of `size` bytes the set has from there on.
fn request_at(fs: FileStorage, at: u64, size: u64) -> UnsignedRequest
    requires { 0 < fs.piece_length }
    ensures { request_of result ≡ request_at fs at size }
{
    if fs.total_size <= at {
        return UnsignedRequest {
            piece: div_ceil(fs.total_size, fs.piece_length),
            start: 0,
            length: 0,
        };
    }
    let (piece, start) = cut_at(at, fs.piece_length);
    UnsignedRequest {
        piece,
        start,
        length: size.min(fs.total_size - at),
    }
}

// The first piece that begins at the request or after it.
fn exclusive_begin(r: UnsignedRequest) -> u64
    requires { r.piece < 2 ^ 32 }
    ensures { result ≡ exclusive_begin (request_of r) }
{
    r.piece + u64::from(r.start != 0)
}

// The end, or the begin where the end is below it or 2147483648.
fn end_or_begin(begin: u64, end: u64) -> u64
    ensures { result ≡ end_or_begin begin end }
{
    if end < begin || end == 2147483648 {
        return begin;
    }
    end
}

// The position `size` bytes after the request's begin.
fn position_after(fs: FileStorage, r: UnsignedRequest, size: u64) -> u64
    requires { r.piece * fs.piece_length + r.start + size < 2 ^ 64 }
    ensures { result ≡ position_of fs (request_of r) + size }
{
    r.piece * fs.piece_length + r.start + size
}

impl AskedFile<'_> {
    // The request for its first byte.
    fn start(self) -> UnsignedRequest
        ensures { request_of result ≡ file_start self.entry.fs self.entry.rows.now self.entry.k }
    {
        request_at(self.fs, self.offset(), 1)
    }

    // The end of the pieces that lie wholly in it; `r` is the request for its first byte.
    fn exclusive_end(self, r: UnsignedRequest) -> u64
        requires { request_of r ≡ file_start self.fs self.rows.now self.k }
        ensures { result
            ≡ exclusive_end self.entry.fs self.entry.k (row_at self.entry.rows.now self.entry.k).size (request_of r) }
    {
        if self.k + 1 == self.fs.num_files {
            return count_pieces(self.fs);
        }
        end_or_begin(
            exclusive_begin(r),
            div(
                position_after(self.fs, r, self.size()) + 1,
                self.fs.piece_length,
            ),
        )
    }

    // The pieces that lie wholly in it.
    fn exclusive(self) -> PieceIndexRange
        ensures { range_numbers result ≡ exclusive_range self.entry.fs self.entry.rows.now self.entry.k }
    {
        let r = self.start();
        PieceIndexRange {
            begin: PieceIndex::new(exclusive_begin(r)),
            end: PieceIndex::new(self.exclusive_end(r)),
        }
    }

    // The pieces that have a byte of it.
    fn inclusive(self) -> PieceIndexRange
        ensures { range_numbers result ≡ inclusive_range self.entry.fs self.entry.rows.now self.entry.k }
    {
        let r = self.start();
        PieceIndexRange {
            begin: PieceIndex::new(r.piece),
            end: PieceIndex::new(after_quotient(
                position_after(self.fs, r, self.size()),
                self.fs.piece_length,
            )),
        }
    }
}

// Whether no tree has that number of leaves.
fn is_no_width(leaves: u64) -> bool
    ensures { result ≡ not (has_tree leaves) }
{
    merkle::merkle_num_leafs(leaves as usize).is_err()
}

// Whether the row of file k is there and no tree has that number of leaves.
fn is_no_node(rows: &[u64], k: usize, leaves: u64) -> bool
    ensures { result ≡ (no_node (row_there rows.now k) leaves).test }
{
    rules::is_there(rows, k) && is_no_width(leaves)
}

// The first node of a layer of a file's tree with that number of leaves.
// Stays: public questions are lent each table by itself, and a record of all would ask for those that a question does
// not read (docs/DECISIONS.md, Forms 10), here and below.
fn first_node(
    fs: FileStorage,
    rows: &[u64],
    index: FileIndex,
    leaves: u64,
) -> Result<usize, Refusal>
    ensures { outcome result ≡ node_given fs rows.now index.0 leaves }
{
    let k = index.get();
    let no_tree = is_no_tree(fs, rows, k) || is_no_node(rows, k, leaves);
    Tests {
        no_tree,
        ..Tests::of_file(fs, index, holds_rows(fs, rows))
    }
    .first_refusal()?;
    merkle::merkle_first_node(leaves as usize)
}

// The first of n files whose root, zeros where it has none, is `root`; −1, as in the Rust, where none fits.
// Stays: n is the number of entries of two tables, each of which may be longer; a front of one would leave out the
// other's.
fn find_root(rows: &[u64], roots: &[u8], n: usize, root: Sha256Hash) -> FileIndex
    ensures { result.0 ≡ low31 (root_from n 0 rows.now roots.now root.bytes) }
{
    (0..n)
        .find(|k| answers::root_of(rows, roots, *k) == root)
        .map_or(FileIndex::none(), |k| FileIndex::new(k as u64))
}

// The file whose pieces a question is about, or its refusal.
// Stays: its callers are public and are lent each table by itself; a record would be made at each call of this one.
fn file_of_pieces<'a>(
    fs: FileStorage,
    rows: &'a [u64],
    index: FileIndex,
) -> Result<AskedFile<'a>, Refusal>
    ensures answer { asked_says result ≡ file_pieces_answer fs index.0 (rows_are_held fs rows.now) (λ k. k) }
    ensures same { IfOk result (λ f. (f.fs ≡ fs) × (f.rows.now ≡ rows.now)) }
{
    Tests {
        many: has_many(fs),
        ..Tests::of_file(fs, index, holds_rows(fs, rows))
    }
    .first_refusal()?;
    let k = index.get();
    Ok(AskedFile { fs, rows, k })
}

// The number of the file whose tree a question is about, or its refusal; `many` says whether the set has too many
// pieces for the question.
fn file_of_tree(
    fs: FileStorage,
    rows: &[u64],
    index: FileIndex,
    many: bool,
) -> Result<usize, Refusal>
    ensures { outcome result
        ≡ answered
        (bad_piece_length fs ∷
        no_file fs index.0 ∷
        when many 13 ∷
        no_tree fs (row_at rows.now (clamped_of index.0)) ∷
        short (rows_are_held fs rows.now && few_entries fs) ∷
        [])
        (clamped_of index.0) }
{
    let no_tree = is_no_tree(fs, rows, index.get());
    Tests {
        many,
        no_tree,
        ..Tests::of_file(fs, index, holds_rows(fs, rows))
    }
    .first_refusal()?;
    Ok(index.get())
}

// The first piece of a file.
pub fn piece_index_at_file(
    fs: FileStorage,
    rows: &[u64],
    index: FileIndex,
) -> Result<PieceIndex, Refusal>
    ensures { piece_says result ≡ piece_at_file_given fs rows.now index.0 }
{
    file_of_pieces(fs, rows, index).map(|f| PieceIndex::new(div(f.offset(), fs.piece_length)))
}

// The last piece of a file, −1 for an empty file at 0 where the piece length is 1.
pub fn last_piece_index_at_file(
    fs: FileStorage,
    rows: &[u64],
    index: FileIndex,
) -> Result<PieceIndex, Refusal>
    ensures { piece_says result ≡ last_piece_at_file_given fs rows.now index.0 }
{
    file_of_pieces(fs, rows, index).map(|f| {
        let end = f.offset() + f.size();
        last_quotient(end, fs.piece_length)
    })
}

// The number of pieces of a file that starts on a piece.
pub fn file_num_pieces(fs: FileStorage, rows: &[u64], index: FileIndex) -> Result<i32, Refusal>
    ensures { outcome result ≡ file_num_pieces_given fs rows.now index.0 }
{
    let k = file_of_tree(fs, rows, index, has_many(fs))?;
    Ok(types::signed32(div_ceil(tables::size_at(rows, k), fs.piece_length)))
}

// A file's pieces, counted from 0.
pub fn file_piece_range(
    fs: FileStorage,
    rows: &[u64],
    index: FileIndex,
) -> Result<I32Range, Refusal>
    ensures { number_range_says result ≡ file_piece_range_given fs rows.now index.0 }
{
    let end = file_num_pieces(fs, rows, index)?;
    Ok(I32Range { begin: 0, end })
}

// The number of blocks of a file that starts on a piece.
pub fn file_num_blocks(fs: FileStorage, rows: &[u64], index: FileIndex) -> Result<i64, Refusal>
    ensures { outcome result ≡ file_num_blocks_given fs rows.now index.0 }
{
    let k = file_of_tree(fs, rows, index, false)?;
    Ok(types::signed64(blocks_of(rows, k)))
}

// The first node of the layer of pieces in a file's tree.
pub fn file_first_piece_node(
    fs: FileStorage,
    rows: &[u64],
    index: FileIndex,
) -> Result<usize, Refusal>
    ensures { outcome result ≡ first_piece_node_given fs rows.now index.0 }
{
    let leaves = div_ceil(tables::size_at(rows, index.get()), fs.piece_length);
    first_node(fs, rows, index, leaves)
}

// The first node of the layer of blocks in a file's tree.
pub fn file_first_block_node(
    fs: FileStorage,
    rows: &[u64],
    index: FileIndex,
) -> Result<usize, Refusal>
    ensures { outcome result ≡ first_block_node_given fs rows.now index.0 }
{
    first_node(fs, rows, index, blocks_of(rows, index.get()))
}

// The first file whose root, zeros where it has none, is `root`; −1 where none fits.
#[tactic(auto, using(crate::proofs::Roots::root_low))]
pub fn file_index_for_root(
    fs: FileStorage,
    rows: &[u64],
    roots: &[u8],
    root: Sha256Hash,
) -> Result<FileIndex, Refusal>
    ensures { file_says result ≡ file_for_root_given fs rows.now roots.now root.bytes }
{
    let held = holds_rows(fs, rows) && holds_roots(fs, roots);
    Tests::of_set(fs, held).first_refusal()?;
    Ok(find_root(rows, roots, fs.num_files, root))
}

// A request in signed numbers, which hold it.
// Stays: it is asked only of a request whose numbers an `i32` holds, so `as` is exact; `From` must take every request,
// and `types::signed32` would take remainders that change nothing.
fn signed_request(r: UnsignedRequest) -> PeerRequest
    requires { (r.piece ≤ 2147483647) × (r.start ≤ 2147483647) × (r.length ≤ 2147483647) }
    ensures { (result.piece.0 ≡ pos r.piece) × (result.start ≡ pos r.start) × (result.length ≡ pos r.length) }
{
    PeerRequest {
        piece: PieceIndex(r.piece as i32),
        start: r.start as i32,
        length: r.length as i32,
    }
}

// The offset of row k, which the table has.
// Stays: `tables::offset_at` tests for the row; where the set passes and has file k, it is there.
fn offset_of(rows: &[u64], k: usize) -> u64
    requires { k * 8 < length rows.now }
    ensures { result ≡ (row_at rows.now k).offset }
{
    rows[k * ROW_WIDTH] % SIZE_RANGE
}

// Whether the set passes its own tests, so that it answers questions about bytes of its files.
pub(crate) fn passes_set(fs: FileStorage, rows: &[u64]) -> bool
    ensures { result ≡ (first_of (set_rules fs (length rows.now / 8)) == 0) }
{
    !is_bad_length(fs.piece_length) && !has_many(fs) && are_held(fs, holds_rows(fs, rows))
}

// Whether a question passes its own tests: file k is one of the set's, and offset and size are in range.
fn passes_position(fs: FileStorage, k: usize, offset: i64, size: i32) -> bool
    ensures { result ≡ (first_of (position_rules fs (pos k) offset size) == 0) }
{
    k < fs.num_files && !is_bad_range(offset, i64::from(size))
}

// The refusal of a question about bytes of a file that does not pass: 10 where no test before it holds. `in_place` says
// whether the file, the offset and the size pass theirs.
fn refused_bytes(fs: FileStorage, index: FileIndex, in_place: bool) -> Refusal
    ensures { number_of result
        ≡ first_of
        (bad_piece_length fs ∷ no_file fs index.0 ∷ many_pieces fs ∷ when (not in_place) 14 ∷ short false ∷ []) }
{
    let tests = Tests {
        many: has_many(fs),
        bad_range: !in_place,
        ..Tests::of_file(fs, index, false)
    };
    tests.first_refusal().err().unwrap_or(Refusal::NoRoom)
}

// The refusal of a question about bytes of file k that does not pass, where the set passes.
fn refused_place(fs: FileStorage, k: usize) -> Refusal
    ensures { number_of result ≡ first_of (no_file fs (pos k) ∷ when true 14 ∷ []) }
{
    if fs.num_files <= k {
        return Refusal::NoSuchFile;
    }
    Refusal::OutOfRange
}

// Where bytes of a file lie; PASSES says whether the set passes its own tests. All tests stand before the answer, so
// that no answer waits for the number of a refusal.
#[inline(always)]
pub(crate) fn map_tested<const PASSES: bool>(
    fs: FileStorage,
    rows: &[u64],
    index: FileIndex,
    offset: i64,
    size: i32,
) -> Result<PeerRequest, Refusal>
    requires { PASSES ≡ (first_of (set_rules fs (length rows.now / 8)) == 0) }
    ensures { request_says result ≡ file_mapped fs rows.now index.0 offset size }
{
    let k = file_or_past(index);
    let in_place = passes_position(fs, k, offset, size);
    if PASSES {
        if in_place {
            return Ok(signed_request(request_at(
                fs,
                offset_of(rows, k) + clamped(offset),
                clamped(i64::from(size)),
            )));
        }
        return Err(refused_place(fs, k));
    }
    Err(refused_bytes(fs, index, in_place))
}

// Where bytes of a file lie: the piece, the start in it, and how many of them the set has. It does not stop at the
// file's end.
pub fn map_file(
    fs: FileStorage,
    rows: &[u64],
    index: FileIndex,
    offset: i64,
    size: i32,
) -> Result<PeerRequest, Refusal>
    ensures { request_says result ≡ file_mapped fs rows.now index.0 offset size }
{
    if passes_set(fs, rows) {
        map_tested::<true>(fs, rows, index, offset, size)
    } else {
        map_tested::<false>(fs, rows, index, offset, size)
    }
}

// The pieces that lie wholly in a file.
pub fn file_piece_range_exclusive(
    fs: FileStorage,
    rows: &[u64],
    index: FileIndex,
) -> Result<PieceIndexRange, Refusal>
    ensures { piece_range_says result ≡ exclusive_given fs rows.now index.0 }
{
    file_of_pieces(fs, rows, index).map(|f| f.exclusive())
}

// The pieces that have a byte of a file.
pub fn file_piece_range_inclusive(
    fs: FileStorage,
    rows: &[u64],
    index: FileIndex,
) -> Result<PieceIndexRange, Refusal>
    ensures { piece_range_says result ≡ inclusive_given fs rows.now index.0 }
{
    file_of_pieces(fs, rows, index).map(|f| f.inclusive())
}
