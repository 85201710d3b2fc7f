// A link's text is removed, or a new one is put after the used part of the text area: joined from its parts there, or
// copied from the scratch space. Relies on cut.rt, parts.rt, the joins of `path`, `lookup` for a link's text and the
// laws of proofs/Placed.antt and proofs/OneLink.antt.
ghost use Rattle.std.specs.Prelude.{◌≡◌, [], ◌-◌, ◌≤◌, length};
ghost use Rattle.path.specs.Join.{appended, fits, joined_if, joined_says};
ghost use Rattle.tables.specs.Span.{end_of, text_at};
ghost use Rattle.tables.specs.Rows.{row_at, put_row};
ghost use Rattle.tables.specs.Lending.{store_in, held, SameTables};
ghost use Rattle.lookup.specs.Lookup.{lent};
ghost use Rattle.texts.specs.Texts.{row_with, gone_at, relinked, with_own, with_beside};
ghost use Rattle.texts.specs.Texts.{text_beside, staged_beside};
ghost use Rattle.texts.specs.private.Parts.{joined_behind, room_beside};

use crate::cut::cut_out;
use crate::parts::is_within;
use tables::{FileStorage, LentSet, LentSetMut, Row, Span};
use types::Refusal;

// Makes a span the link text of file i.
// Stays: a row's words are read and written by `tables`; one field of the record changes.
fn put_link(rows: &mut [u64], i: usize, link: Span)
    ensures { rows.new
        ≡ put_row rows.old i (row_with (row_at rows.old i) (row_at rows.old i).name link) }
{
    let row = tables::row_at(rows, i);
    tables::put_row(rows, i, Row { link, ..row });
}

// Cuts the link text of file i out, and puts a new one after what is left.
fn relink(set: &mut LentSetMut<'_>, i: usize, new: &[u8])
    requires { length new.now ≤ length set.old.text.now - (set.old.fs.text_len - (gone_at (held set.old) i).len) }
    ensures after { held set.new ≡ relinked (held set.old) i new.now }
    ensures same { SameTables set.old set.new }
{
    let LentSet { fs, lent } = set.read();
    let row = tables::row_at(lent.rows, i);
    cut_out(set, tables::clipped(fs.text_len, row.link));
    let link = Span {
        at: set.fs.text_len,
        len: new.len(),
    };
    lists::copy_after(set.text, link.at, new);
    put_link(set.rows, i, link);
    set.fs.text_len = link.at + link.len;
}

// Joins the texts of two spans of the first `used` bytes behind these bytes, where they fit, and gives the length.
// Stays: it is a function of its own; tried, where `write_own` parts `set.text` itself, what the field holds after both
// parts end had no name but the check's, and `returns-in_default-clause-after` stayed open.
fn join_behind(text: &mut [u8], used: usize, branch: Span, leaf: Span) -> Result<usize, Refusal>
    requires { (end_of branch ≤ used) × (end_of leaf ≤ used) }
    ensures { joined_says result text.new
        ≡ joined_behind text.old used (appended (text_at text.old branch) (text_at text.old leaf)) }
{
    let (front, rest) = text.split_at_mut(used.min(text.len()));
    let directory = tables::text_at(front, branch);
    path::join_path(directory, tables::text_at(front, leaf), rest)
}

// Writes the own path of link i, whose text was removed, as its text, where it fits.
// Stays: it is lent each table by itself, since it reads the directories and writes the other two; a `LentSetMut` would
// ask for the directories for writing.
pub fn write_own(
    fs: FileStorage,
    rows: &mut [u64],
    dirs: &[u64],
    text: &mut [u8],
    i: usize,
) -> FileStorage
    ensures { lent result rows.new dirs.now text.new
        ≡ with_own (lent fs rows.old dirs.now text.old) i }
{
    let at = fs.text_len;
    let row = tables::row_at(rows, i);
    let branch = tables::directory_span(dirs, row);
    if !is_within(at, branch) || !is_within(at, row.name) {
        return fs;
    }
    let Ok(len) = join_behind(text, at, branch, row.name) else {
        return fs;
    };
    put_link(rows, i, Span { at, len });
    FileStorage {
        text_len: at + len,
        ..fs
    }
}

// Writes the text of link i from the link's directory to the start of the scratch space, where it fits there.
fn stage_beside(set: LentSet<'_>, i: usize, scratch: &mut [u8]) -> Result<usize, Refusal>
    ensures { joined_says result scratch.new
        ≡ joined_if (fits (text_beside (store_in set.entry) i) scratch.old)
        (text_beside (store_in set.entry) i) scratch.old }
{
    let LentSet { lent, .. } = set;
    let row = tables::row_at(lent.rows, i);
    let directory = lent.directory_of(row);
    path::join_path(directory, lookup::link_text(lent.text, row), scratch)
}

// The room for a new text of link i, once the old one is removed.
fn room_beside(set: LentSet<'_>, i: usize) -> usize
    ensures { result ≡ room_beside (store_in set.entry) i }
{
    let gone = tables::clipped(set.fs.text_len, tables::row_at(set.lent.rows, i).link);
    let left = set.fs.text_len.saturating_sub(gone.len);
    set.lent.text.len().saturating_sub(left)
}

// Replaces the text of link i by that from the link's directory, where it fits. The scratch space then begins with it,
// where it fits there.
// Stays: a record of the set and the scratch space would hold `&mut`s in a `&mut`: the clause for each would name its
// field, and a further one say that the scratch space is the same reference.
#[tactic(auto, using(crate::proofs::OneLink::staged_short))]
pub fn write_beside(set: &mut LentSetMut<'_>, scratch: &mut [u8], i: usize)
    ensures text_after { held set.new ≡ with_beside (length scratch.old) (held set.old) i }
    ensures scratch_after { scratch.new ≡ staged_beside (held set.old) i scratch.old }
    ensures same { SameTables set.old set.new }
{
    let room = room_beside(set.read(), i);
    let Ok(n) = stage_beside(set.read(), i, scratch) else {
        return;
    };
    if n <= room {
        relink(set, i, lists::part(scratch, 0, n));
    }
}

// Removes the text of link i: the link then has a text of no bytes.
pub fn empty_text(set: &mut LentSetMut<'_>, i: usize)
    ensures after { held set.new ≡ relinked (held set.old) i [] }
    ensures same { SameTables set.old set.new }
{
    relink(set, i, b"");
}
