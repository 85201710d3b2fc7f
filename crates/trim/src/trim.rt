// The search for the pad, and what its removal writes. Relies on the writers of `tables` and the laws of
// proofs/Trims.antt.
ghost use Rattle.std.specs.Prelude.{◌≡◌, List, ℕ, ◌-◌, ◌/◌, ◌<◌, ◌≤◌, length};
ghost use Rattle.types.specs.Refusals.{outcome};
ghost use Rattle.tables.specs.declared.rows.Row.{Row};
ghost use Rattle.tables.specs.Model.{store_of};
ghost use Rattle.rules.specs.Bounds.{max_entries};
ghost use Rattle.trim.specs.Removal.{first_gone, second_gone, storage_without, store_trimmed, trim_stored};
ghost use Rattle.change.specs.Changes.{changed_of};
ghost use Rattle.trim.specs.private.Search.{tail_pad_in};

use change::Rooms;
use tables::{FileStorage, ROOT_WIDTH, ROW_WIDTH, Removed, Row, Span};
use types::Refusal;

// The last of the rows that is not empty, where it is a pad.
fn find_tail_pad(rows: &[u64]) -> Option<usize>
    ensures { result ≡ tail_pad_in rows.now (length rows.now / 8) }
{
    (0..rows.len() / ROW_WIDTH)
        .rfind(|i| 0 < tables::size_at(rows, *i))
        .filter(|i| tables::is_pad(tables::flags_at(rows, *i)))
}

// What goes with file f, which has this row: of its name, and then of its link text, the bytes within the used part of
// the text area.
fn gone_with(fs: FileStorage, f: usize, row: Row) -> Removed
    ensures { result
        ≡ record { row = f; total = fs.total_size - row.size; name = first_gone fs row; link = second_gone fs row } }
{
    let name = tables::clipped(fs.text_len, row.name);
    let left = fs.text_len.saturating_sub(name.len);
    Removed {
        row: f,
        total: fs.total_size.saturating_sub(row.size),
        name,
        link: tables::clipped(left, tables::low_span(name, row.link)),
    }
}

// The set's record once a file is removed.
fn storage_without(fs: FileStorage, gone: Removed) -> FileStorage
    ensures { (row : Row)
        → gone.total ≡ fs.total_size - row.size → result ≡ storage_without fs row gone.name gone.link }
{
    FileStorage {
        num_files: fs.num_files.saturating_sub(1),
        name: tables::low_span(gone.link, tables::low_span(gone.name, fs.name)),
        text_len: fs
            .text_len
            .saturating_sub(gone.name.len)
            .saturating_sub(gone.link.len),
        total_size: gone.total,
        trimmed: true,
        ..fs
    }
}

// Removes file f from the tables, and gives the set's record after it.
// Stays: a record of the four tables would be made for the one call of this function, and taken apart in it: each of
// the calls below takes one table. With `cut_out` of `texts` for each of the two spans all rows would be gone over two
// times more: `remove_row` lowers both spans as it moves the rows.
fn remove_file(
    fs: FileStorage,
    rows: &mut [u64],
    roots: &mut [u8],
    dirs: &mut [u64],
    text: &mut [u8],
    f: usize,
) -> FileStorage
    requires { (f < fs.num_files) × (fs.num_files ≤ max_entries) }
    ensures { (firsts : List ℕ)
        → store_of result rows.new roots.new firsts dirs.new text.new
        ≡ store_trimmed
        (store_of fs rows.old roots.old firsts dirs.old text.old) f }
{
    let gone = gone_with(fs, f, tables::row_at(rows, f));
    let left = storage_without(fs, gone);
    tables::remove_row(rows, left.num_files, gone);
    tables::remove_text(
        roots,
        fs.num_files * ROOT_WIDTH,
        Span {
            at: f * ROOT_WIDTH,
            len: ROOT_WIDTH,
        },
    );
    tables::lower_dirs(dirs, fs.num_paths, gone.name);
    tables::lower_dirs(dirs, fs.num_paths, gone.link);
    tables::remove_text(text, fs.text_len, gone.name);
    tables::remove_text(text, fs.text_len.saturating_sub(gone.name.len), gone.link);
    left
}

// Removes the last file that is not empty, where it is a pad. A table of first files is not lent: whatever it holds, a
// trim leaves it, and the set has fewer pieces in it.
// Stays: a public call is lent each table by itself (docs/DECISIONS.md, Forms 10).
#[tactic(auto, using(crate::proofs::Trims::found_front, crate::proofs::Trims::few_files))]
pub fn remove_tail_padding(
    fs: FileStorage,
    rows: &mut [u64],
    roots: &mut [u8],
    dirs: &mut [u64],
    text: &mut [u8],
) -> Result<FileStorage, Refusal>
    ensures { (firsts : List ℕ)
        → changed_of (outcome result)
        rows.new roots.new firsts dirs.new text.new
        ≡ trim_stored
        (store_of fs
        rows.old roots.old firsts dirs.old text.old) }
{
    if rules::is_bad_length(fs.piece_length) {
        return Err(Refusal::InvalidPieceLength);
    }
    let rooms = Rooms::of(rows, roots, dirs, text);
    if !change::holds(fs, rooms) {
        return Err(Refusal::NoRoom);
    }
    match find_tail_pad(&rows[..fs.num_files * ROW_WIDTH]) {
        Some(f) => Ok(remove_file(fs, rows, roots, dirs, text, f)),
        None => Ok(fs),
    }
}
