// Where a search begins, by a table of the file in which each piece begins. Relies on `rules` for the range of piece
// lengths and on `types` for signed numbers.
ghost use Rattle.std.specs.Prelude.{◌≡◌, ◌<◌, false, slice_index};
ghost use Rattle.rules.specs.Bounds.{max_pieces, bad_length};
ghost use Rattle.layout.specs.Window.{no_window, high_of, window_at, window_for};

use rules::MAX_PIECES;
use tables::FileStorage;
use types::{PieceIndex, clamped};

// The files with which a search begins: from `low` on and before `high`; none where `high` is no larger.
// Stays: a lent table may say anything, so low and high are compared in any case, and an `Option` would add one more. A
// `Range<usize>` would hold the same two numbers, but the public promises (specs/Window.antt) name them low and high,
// and none of its methods but `is_empty` would be called.
#[derive(Drop)]
pub struct Window {
    pub low: usize,
    pub high: usize,
}

// No files to begin with: a search is over all.
pub fn no_window() -> Window
    ensures { result ≡ no_window }
{
    Window { low: 0, high: 0 }
}

// Place p of the table, 0 where it has none.
fn first_at(firsts: &[u16], p: usize) -> usize
    ensures { result ≡ slice_index firsts.now p }
{
    usize::from(lists::item_or(firsts, p, 0))
}

// Where the files end that can have a byte of piece p: behind the first file of the next piece, or with the last file.
// Stays: here and below: five private functions of three crates are told that the piece length was tested: this one and
// `window_at`, plan's `lacks_places` and `is_full`, and `pad_after` of additions. All but the last take the set, which
// holds it; a second record with a tested length would have to be made from the set for each of them.
fn high_of(fs: FileStorage, firsts: &[u16], p: usize) -> usize
    requires { (p < max_pieces) × (bad_length fs.piece_length ≡ false) }
    ensures { result ≡ high_of fs firsts.now p }
{
    let next = p + 1;
    if next as u64 * fs.piece_length < fs.total_size {
        return first_at(firsts, next) + 1;
    }
    fs.num_files
}

// The window of piece p, where the table has a place for it.
fn window_at(fs: FileStorage, firsts: &[u16], p: u64) -> Window
    requires { bad_length fs.piece_length ≡ false }
    ensures { result ≡ window_at fs firsts.now p }
{
    let places = (firsts.len() as u64).min(MAX_PIECES);
    if places <= p {
        return no_window();
    }
    Window {
        low: first_at(firsts, p as usize),
        high: high_of(fs, firsts, p as usize),
    }
}

// Where the search for the byte at an offset from a piece's start begins, by the table of first files; over all files
// in a set that keeps none.
pub fn window_for(fs: FileStorage, firsts: &[u16], piece: PieceIndex, offset: i64) -> Window
    ensures { result ≡ window_for fs firsts.now piece.0 offset }
{
    if !fs.indexed || rules::is_bad_length(fs.piece_length) {
        return no_window();
    }
    let more = lists::div(clamped(offset), fs.piece_length);
    window_at(fs, firsts, piece.get() as u64 + more)
}
