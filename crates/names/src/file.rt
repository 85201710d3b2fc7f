// A file's whole path, composed into a lent buffer, and its hash, taken part by part without one. Relies on
// decide.rt, compose.rt and `crc32c`, and on the laws of proofs/Paths.antt.
ghost use Rattle.std.specs.Prelude.{◌≡◌, cond, [], ◌∷◌, ◌++◌, map, eqb};
ghost use Rattle.types.specs.Refusals.{outcome};
ghost use Rattle.path.specs.Join.{joined_says};
ghost use Rattle.crc32c.specs.Crc.{crc_from, lower};
ghost use Rattle.tables.specs.Rows.{path_is_absolute, row_at};
ghost use Rattle.tables.specs.Span.{text_at};
ghost use Rattle.rules.specs.Composed.{composed_if};
ghost use Rattle.rules.specs.Questions.{file_answer};
ghost use Rattle.names.specs.Paths.{set_leads, led, hash_of, names_held, file_path_into, file_path_hash};
ghost use Rattle.names.specs.private.Sets.{path_of, hashed_of};

use crate::compose::compose_path;
use crate::decide::{file_of, is_led, set_span};
use tables::{FileStorage, LentSet, Row};
use types::{FileIndex, Refusal};

// The save path, or nothing for a file that was added by an absolute path.
fn save_of(save_path: &[u8], path_index: u64) -> &[u8]
    ensures { result.now ≡ cond (eqb path_index path_is_absolute) [] save_path.now }
{
    if path_index == tables::PATH_IS_ABSOLUTE {
        b""
    } else {
        save_path
    }
}

// Writes the whole path of the file of `row`.
// Stays: the path goes into a lent buffer, since no function here has a heap.
fn put_path(set: LentSet<'_>, row: Row, save_path: &[u8], buf: &mut [u8]) -> Result<usize, Refusal>
    ensures { joined_says result buf.new
        ≡ composed_if 0 (path_of set.entry save_path.now row)
        buf.old }
{
    let text = set.lent.text;
    let save = save_of(save_path, row.path_index);
    let lead = tables::text_at(text, set_span(set.fs, row));
    let directory = set.lent.directory_of(row);
    let name = tables::text_at(text, row.name);
    compose_path(save, lead, directory, name, buf)
}

// The hash `crc` of the bytes so far, continued with `part` and a separator.
fn hash_closed(crc: u32, part: &[u8]) -> u32
    ensures { result ≡ crc_from crc (map lower (part.now ++ (47 ∷ []))) }
{
    let whole = crc32c::crc32c_append_lowercase(crc, part);
    crc32c::crc32c_append_lowercase(whole, b"/")
}

// The hash `crc` of the bytes so far, continued with `part` and a separator where the part is not empty.
pub fn hash_led(crc: u32, part: &[u8]) -> u32
    ensures { result ≡ crc_from crc (map lower (led part.now)) }
{
    if part.is_empty() {
        crc
    } else {
        hash_closed(crc, part)
    }
}

// The hash `crc` of the bytes so far, continued with the set's name and a separator where the name leads the path.
fn hash_set(crc: u32, fs: FileStorage, text: &[u8], row: Row) -> u32
    ensures { result ≡ crc_from crc (map lower (cond (set_leads row) (text_at text.now fs.name ++ (47 ∷ [])) [])) }
{
    if is_led(row) {
        hash_closed(crc, tables::text_at(text, fs.name))
    } else {
        crc
    }
}

// The hash of the whole path of the file of `row`.
fn hash_path(set: LentSet<'_>, row: Row, save_path: &[u8]) -> u32
    ensures { result ≡ hash_of (hashed_of set.entry save_path.now row) }
{
    let text = set.lent.text;
    let save = save_of(save_path, row.path_index);
    let directory = set.lent.directory_of(row);
    let name = tables::text_at(text, row.name);
    let crc1 = hash_led(0, save);
    let crc2 = hash_set(crc1, set.fs, text, row);
    let crc3 = hash_led(crc2, directory);
    crc32c::crc32c_append_lowercase(crc3, name)
}

// The row of the file that a question about its path is about, or its refusal.
fn row_in(set: LentSet<'_>, index: FileIndex) -> Result<Row, Refusal>
    ensures { outcome result
        ≡ file_answer set.entry.fs index.0
        (names_held set.entry.fs set.entry.lent.rows.now set.entry.lent.dirs.now set.entry.lent.text.now)
        (row_at set.entry.lent.rows.now) }
{
    Ok(tables::row_at(set.lent.rows, file_of(set, index)?))
}

// Writes the whole path of a file, after `save_path`, to `buf`.
// Stays: it takes the tables as the other public questions do, of which most read fewer (docs/DECISIONS.md), here
// and below.
pub fn file_path(
    fs: FileStorage,
    rows: &[u64],
    dirs: &[u64],
    text: &[u8],
    index: FileIndex,
    save_path: &[u8],
    buf: &mut [u8],
) -> Result<usize, Refusal>
    ensures { joined_says result buf.new
        ≡ file_path_into fs rows.now dirs.now text.now index.0
        save_path.now buf.old }
{
    let set = LentSet::new(fs, rows, dirs, text);
    put_path(set, row_in(set, index)?, save_path, buf)
}

// The hash of a file's whole path, after `save_path`.
pub fn file_path_hash(
    fs: FileStorage,
    rows: &[u64],
    dirs: &[u64],
    text: &[u8],
    index: FileIndex,
    save_path: &[u8],
) -> Result<u32, Refusal>
    ensures { outcome result ≡ file_path_hash fs rows.now dirs.now text.now index.0
        save_path.now }
{
    let set = LentSet::new(fs, rows, dirs, text);
    Ok(hash_path(set, row_in(set, index)?, save_path))
}
