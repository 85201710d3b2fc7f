// How many marks a set's links need, and whether the work space is long enough. The space that links need is taken
// off what is there link by link, since a sum could overflow. They rely on set.rt, on the laws of `lists` for what is
// taken off a room, and on those of proofs/Spaces.antt.
ghost use Rattle.std.specs.Prelude.{◌≡◌, [], ◌-◌, ◌≤◌, ltb, SomeIff};
ghost use Rattle.lookup.specs.Space.{space, link_count, lacks_space};
ghost use Rattle.lookup.specs.Lookup.{files_in, entries_of};
ghost use Rattle.lookup.specs.private.Rows.{row_space};
ghost use Rattle.lookup.specs.private.Sets.{stored_in};

use crate::set::{is_link, link_text};
use tables::{FileStorage, Lent, LentSet};

// How many flagged links the set has.
pub fn count_links(fs: FileStorage, rows: &[u64]) -> usize
    ensures { result ≡ link_count (files_in fs rows.now [] []) }
{
    (0..fs.num_files).filter(|i| is_link(rows, *i)).count()
}

// What is left of `left` bytes after the space that file i needs, if they are enough: directory length + text length +
// 2 for a flagged link, else nothing.
fn left_after(lent: Lent<'_>, i: usize, left: usize) -> Option<usize>
    ensures { SomeIff result (row_space lent.entry.rows.now lent.entry.dirs.now lent.entry.text.now i ≤ left)
        (left - row_space lent.entry.rows.now lent.entry.dirs.now lent.entry.text.now i) }
{
    if !is_link(lent.rows, i) {
        return Some(left);
    }
    let row = tables::row_at(lent.rows, i);
    let directory = lent.directory_of(row);
    let rest = left.checked_sub(directory.len())?;
    let rest = rest.checked_sub(link_text(lent.text, row).len())?;
    rest.checked_sub(2)
}

// Whether the space that all links need is more than `room` bytes.
fn lacks_bytes(set: LentSet<'_>, room: usize) -> bool
    ensures { result ≡ ltb room (space (entries_of (stored_in set.entry))) }
{
    (0..set.fs.num_files)
        .try_fold(room, |left, i| left_after(set.lent, i, left))
        .is_none()
}

// Whether there are fewer marks than links, or `scratch` or `walk_path` is shorter than the links need; all three are
// lengths.
// Stays: it is public and is lent each table by itself (docs/DECISIONS.md, Forms 10), and the three lengths of work
// space are those that its callers pass on.
pub fn lacks_space(
    fs: FileStorage,
    rows: &[u64],
    dirs: &[u64],
    text: &[u8],
    marks: usize,
    scratch: usize,
    walk_path: usize,
) -> bool
    ensures { result ≡ lacks_space (files_in fs rows.now dirs.now text.now) marks scratch
        walk_path }
{
    let room = scratch.min(walk_path / 2);
    let set = LentSet::new(fs, rows, dirs, text);
    marks < count_links(fs, rows) || lacks_bytes(set, room)
}
