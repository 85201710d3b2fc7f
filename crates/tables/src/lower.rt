// Rows once texts are removed from the text area: the span of each text after a removed one is lowered. Relies on
// rows.rt, span.rt and the laws of proofs/Filled.antt; what the rows read then is in proofs/Moves.antt.
ghost use Rattle.std.specs.Prelude.{◌≡◌, cond, ◌+◌, ◌<◌, ◌^◌, ltb};
ghost use Rattle.tables.specs.Span.{low};
ghost use Rattle.tables.specs.Rows.{row_at, put_row, dir_at, put_dir, dirs_lowered, skip, row_moved, rows_without};

use crate::rows::{DIR_WIDTH, ROW_WIDTH, Row, dir_at, put_dir, put_row, row_at};
use crate::span::{Span, low_span};

// Lowers the span of directory row i once the bytes of the span `c` are removed.
fn lower_dir(dirs: &mut [u64], i: usize, c: Span)
    ensures { dirs.new ≡ put_dir dirs.old i (low c (dir_at dirs.old i)) }
{
    let s = dir_at(dirs, i);
    put_dir(dirs, i, low_span(c, s));
}

// Lowers the spans of the first n directory rows, or of as many as there are, once the bytes of the
// span `c` are removed.
// Stays: its twin of rows in `texts` calls another function in the same loop; with a closure the contract would be
// longer than both. n may pass the table's end, where no slice of n rows can be lent, and a loop over
// `chunks_exact_mut` would leave only the table's length known.
pub fn lower_dirs(dirs: &mut [u64], n: usize, c: Span)
    ensures { dirs.new ≡ dirs_lowered dirs.old n c }
{
    let m = n.min(dirs.len() / DIR_WIDTH);
    for i in 0..m {
        lower_dir(dirs, i, c);
    }
}

// The row that becomes row i where row f is removed.
// Stays: the next row's number is made here and below; a type for a number that can grow by one would be opened at
// once.
fn row_from(f: usize, i: usize) -> usize
    requires { i + 1 < 2 ^ 64 }
    ensures { result ≡ skip f i }
{
    if i < f { i } else { i + 1 }
}

// Where row i begins once row f is removed: the rows after it begin at the total.
fn offset_moved(f: usize, i: usize, offset: u64, total: u64) -> u64
    ensures { result ≡ cond (ltb i f) offset total }
{
    if i < f { offset } else { total }
}

// What is removed with a row: the row, and the spans of its name and then of its link; the rows after it begin at the
// total.
#[derive(Clone, Copy)]
pub struct Removed {
    pub row: usize,
    pub total: u64,
    pub name: Span,
    pub link: Span,
}

// Row `row` as row i, once another one is removed.
fn moved(gone: Removed, i: usize, row: Row) -> Row
    ensures { result ≡ row_moved gone.row gone.total gone.name gone.link i row }
{
    Row {
        offset: offset_moved(gone.row, i, row.offset, gone.total),
        name: low_span(gone.link, low_span(gone.name, row.name)),
        link: low_span(gone.link, low_span(gone.name, row.link)),
        ..row
    }
}

// Writes row i as it is once another one is removed.
fn move_row(rows: &mut [u64], gone: Removed, i: usize)
    requires { i + 1 < 2 ^ 64 }
    ensures { rows.new
        ≡ put_row rows.old i
        (row_moved gone.row gone.total gone.name gone.link i (row_at rows.old (skip gone.row i))) }
{
    let row = row_at(rows, row_from(gone.row, i));
    put_row(rows, i, moved(gone, i, row));
}

// Removes a row of n + 1 rows: the rows after it move down by one, and every span is lowered for the removed spans.
// Stays: row n is read too, and n may pass the table's end, where no slice of so many rows can be lent.
pub fn remove_row(rows: &mut [u64], n: usize, gone: Removed)
    ensures { rows.new ≡ rows_without rows.old n gone.row gone.total gone.name gone.link }
{
    let m = n.min(rows.len() / ROW_WIDTH);
    for i in 0..m {
        move_row(rows, gone, i);
    }
}
