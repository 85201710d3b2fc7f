// Printing: numbers in columns, a file's line by its row, and a set's or a refusal's whole text. Room is
// decided first and written after. Relies on `lists`, `path`, `tables`, `rules` and the laws of proofs/Printed.antt.
ghost use Rattle.std.specs.Prelude.{◌≡◌, ◌+◌, ◌≤◌, ◌<◌, length};
ghost use Rattle.std.proofs.lemmas.List.Edits.{sets};
ghost use Rattle.types.specs.Refusals.{number_of};
ghost use Rattle.path.specs.Join.{joined_says, appended};
ghost use Rattle.listing_output.specs.Output.{printed, listed, stopped};
ghost use Rattle.listing_output.specs.private.Lines.{columns_then, left_in};
ghost use Rattle.listing_output.specs.private.Lent.{path_in, line_in, lines_in};
ghost use Rattle.listing_output.specs.Printing.{shown, put_text};

use tables::{FileStorage, Lent, LentSet};
use types::Refusal;

// Writes numbers, each in a column of its width, from position `at` on, and a byte after them.
// Stays: a column keeps the last digits of a longer number, where `write!` with a width would write all of them.
fn put_columns(out: &mut [u8], at: usize, columns: &[(usize, u64)], last: u8)
    requires { at + length (columns_then last columns.now) ≤ length out.old }
    ensures { out.new ≡ sets out.old at (columns_then last columns.now) }
{
    let mut to = at;
    for (width, n) in columns {
        lists::put_column(out, to, *width, *n);
        to += *width;
    }
    lists::put(out, to, last);
}

// Writes the path of a directory and a name from position `at` on, and gives the position after it. The rest of
// `out` is lent to the join, which has room there.
// Stays: whether a separator stands between the two depends on both texts, which no format string says.
fn put_path(out: &mut [u8], at: usize, dir: &[u8], name: &[u8]) -> usize
    requires { at + length (appended dir.now name.now) ≤ length out.old }
    ensures value { result ≡ at + length (appended dir.now name.now) }
    ensures out_after { out.new ≡
        sets out.old at (appended dir.now name.now) }
{
    at + path::join_path(dir, name, &mut out[at..]).unwrap_or(0)
}

// The length of the path of file i.
fn path_length(lent: Lent<'_>, i: usize) -> usize
    ensures { result ≡ length (path_in lent.entry i) }
{
    let row = tables::row_at(lent.rows, i);
    path::joined_length(lent.directory_of(row), tables::text_at(lent.text, row.name))
}

// Writes the line of file i from position `at` on, and gives the position after it.
// Stays: neither its columns nor its path can be written by a format string, for the reasons above.
fn put_row_line(out: &mut [u8], at: usize, i: usize, lent: Lent<'_>) -> usize
    requires { at + (39 + length (path_in lent i)) ≤ length out.old }
    ensures value { result ≡ at + (39 + length (path_in lent.entry i)) }
    ensures out_after { out.new ≡ sets out.old at (line_in lent.entry i) }
{
    let row = tables::row_at(lent.rows, i);
    let columns = [
        (5, i as u64),
        (15, row.offset),
        (15, row.size),
        (2, u64::from(tables::is_pad(row.flags))),
    ];
    put_columns(out, at, &columns, b' ');
    let end = put_path(
        out,
        at + 38,
        lent.directory_of(row),
        tables::text_at(lent.text, row.name),
    );
    lists::put(out, end, b'\n');
    end + 1
}

// The number of `room` bytes that the lines of a set's files leave, if they fit there. 39 bytes of a line stand beside
// its path.
#[tactic(auto, using(crate::proofs::Printed::measuring))]
fn room_left(set: LentSet<'_>, room: usize) -> Option<usize>
    ensures { result ≡ left_in (length (lines_in set.entry)) room }
{
    let mut left = room;
    for i in 0..set.fs.num_files {
        left = left.checked_sub(39)?.checked_sub(path_length(set.lent, i))?;
    }
    Some(left)
}

// Writes the lines of a set's files to the start of `out`, and gives the position after them.
// Stays: a path's separator depends on both its texts, so no format string writes a line; each line is written from the
// end of the one before, which only the line's own function knows.
#[tactic(auto, using(crate::proofs::Printed::writing))]
fn put_lines(set: LentSet<'_>, out: &mut [u8]) -> usize
    requires { length (lines_in set) ≤ length out.old }
    ensures value { result ≡ length (lines_in set.entry) }
    ensures out_after { out.new ≡ sets out.old 0 (lines_in set.entry) }
{
    let mut at = 0;
    for i in 0..set.fs.num_files {
        at = put_row_line(out, at, i, set.lent);
    }
    at
}

// Writes what is printed of a set to the start of `out`, and gives its length.
// Stays: a listing that is too long leaves `out` as it was, where `write!` would leave its beginning there.
pub fn put_set(
    fs: FileStorage,
    rows: &[u64],
    dirs: &[u64],
    text: &[u8],
    out: &mut [u8],
) -> Result<usize, Refusal>
    ensures { joined_says result out.new
        ≡ put_text (printed (listed (shown fs rows.now dirs.now text.now))) out.old }
{
    let set = LentSet::new(fs, rows, dirs, text);
    let left = room_left(set, out.len()).ok_or(Refusal::NoRoom)?;
    if left < 46 {
        return Err(Refusal::NoRoom);
    }
    let at = put_lines(set, out);
    let columns = [
        (5, fs.num_files as u64),
        (15, fs.total_size),
        (15, fs.size_on_disk),
        (10, rules::count_pieces(fs)),
    ];
    put_columns(out, at, &columns, b'\n');
    Ok(at + 46)
}

// Writes what is printed of a refusal at a line to the start of `out`, and gives its length.
// Stays: as `put_set`: a buffer that is too short is left as it was, and a column keeps the last digits.
pub fn put_refusal(refusal: Refusal, line: usize, out: &mut [u8]) -> Result<usize, Refusal>
    ensures { joined_says result out.new ≡ put_text (printed (stopped (number_of refusal) line)) out.old }
{
    if out.len() < 11 {
        return Err(Refusal::NoRoom);
    }
    let columns = [(5, u64::from(u32::from(refusal))), (5, line as u64)];
    put_columns(out, 0, &columns, b'\n');
    Ok(11)
}
