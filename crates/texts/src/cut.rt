// A text is cut out of the text area, and every span after it is lowered. Relies on the writers of `tables`.
ghost use Rattle.std.specs.Prelude.{◌≡◌};
ghost use Rattle.tables.specs.Rows.{row_at, put_row};
ghost use Rattle.tables.specs.Lending.{held, SameTables};
ghost use Rattle.texts.specs.Texts.{row_lowered, rows_lowered, cut_out};

use tables::{LentSetMut, Row, Span};

// Lowers the spans of row i as the removal of span `c` asks.
fn lower_row(rows: &mut [u64], i: usize, c: Span)
    ensures { rows.new ≡ put_row rows.old i (row_lowered c (row_at rows.old i)) }
{
    let row = tables::row_at(rows, i);
    let name = tables::low_span(c, row.name);
    let link = tables::low_span(c, row.link);
    tables::put_row(rows, i, Row { name, link, ..row });
}

// Lowers the spans of the first n rows, or of as many as there are, as the removal of span `c` asks.
// Stays: its twin of directories in `tables` calls another function in the same loop; with a closure the contract would
// be longer than both. n may pass the table's end, where no slice of n rows can be lent.
fn lower_rows(rows: &mut [u64], n: usize, c: Span)
    ensures { rows.new ≡ rows_lowered rows.old n c }
{
    let m = n.min(rows.len() / tables::ROW_WIDTH);
    for i in 0..m {
        lower_row(rows, i, c);
    }
}

// Removes the bytes of span `c` from the text area.
// Stays: `same`, here and in put.rt: a record that holds `&mut`s has to say of each call that they are the same
// references. It is a fact of two values, before and after, so that no invariant or ghost field says it.
pub(crate) fn cut_out(set: &mut LentSetMut<'_>, c: Span)
    ensures after { held set.new ≡ cut_out (held set.old) c }
    ensures same { SameTables set.old set.new }
{
    lower_rows(set.rows, set.fs.num_files, c);
    tables::lower_dirs(set.dirs, set.fs.num_paths, c);
    tables::remove_text(set.text, set.fs.text_len, c);
    set.fs.name = tables::low_span(c, set.fs.name);
    set.fs.text_len = set.fs.text_len.saturating_sub(c.len);
}
