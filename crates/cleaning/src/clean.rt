// A cleaning: links are judged, the room for their new texts is measured, and the texts are written. Nothing that is
// lent changes before all refusals are decided. Relies on `links` for the judgement, on room.rt, rewrite.rt and the
// laws of proofs/Cleans.antt.
ghost use Rattle.std.specs.Prelude.{◌≡◌, []};
ghost use Rattle.types.specs.Refusals.{outcome};
ghost use Rattle.tables.specs.Lending.{held, SameTables};
ghost use Rattle.lookup.specs.Lookup.{lent};
ghost use Rattle.cleaning.specs.Cleaning.{cleaning_of, clean_stored};
ghost use Rattle.cleaning.specs.private.Writing.{cleaned_by_marks, cleaned_within};

use crate::rewrite::rewrite_links;
use crate::room::{JudgedSet, lacks_room};
use links::{judge_links, links_to_judge};
use tables::{FileStorage, LentSet, LentSetMut};
use types::Refusal;

// Writes the texts of a set whose links are judged, where they have room, and then clears the scratch space.
// Stays: `same`, here and below, and in rewrite.rt: a record that holds `&mut`s has to say of each call that they are
// the same references. It is a fact of two values, before and after, so that no invariant or ghost field says it.
// Stays: set, marks and scratch space, here and in rewrite.rt: the set and the scratch space are written and the marks
// read; a record of them would hold a `&mut` of a record of `&mut`s, and each clause name a field before and after.
fn write_judged(
    set: &mut LentSetMut<'_>,
    marks: &[u8],
    scratch: &mut [u8],
) -> Result<FileStorage, Refusal>
    ensures value { cleaning_of (outcome result) set.new.rows.now set.new.dirs.now set.new.text.now []
        scratch.new []
        ≡ cleaned_by_marks (held set.old) marks.now scratch.old }
    ensures same { SameTables set.old set.new }
{
    let judged = JudgedSet {
        set: set.read(),
        marks,
    };
    if lacks_room(judged) {
        return Err(Refusal::NoRoom);
    }
    rewrite_links(set, marks, scratch);
    scratch.fill(0);
    Ok(set.fs)
}

// Cleans a set, with a mark for each of 65535 links on the stack; `walk_path` is a length. It is a call of its own, so
// that a set without flagged links is cleaned without that stack.
// Stays: the work space is passed on, here and below: of a record of marks, scratch space and walk path each clause
// would name a field before and after, and the lengths of two of the three are all that is read.
#[inline(never)]
fn clean_links(
    set: &mut LentSetMut<'_>,
    scratch: &mut [u8],
    walk_path: usize,
) -> Result<FileStorage, Refusal>
    ensures value { cleaning_of (outcome result) set.new.rows.now set.new.dirs.now set.new.text.now []
        scratch.new []
        ≡ cleaned_within (held set.old) 65535 scratch.old walk_path }
    ensures same { SameTables set.old set.new }
{
    let mut marks = [0u8; 65535];
    let LentSet { fs, lent } = set.read();
    judge_links(
        fs,
        lent.rows,
        lent.dirs,
        lent.text,
        &mut marks,
        scratch.len(),
        walk_path,
    )?;
    write_judged(set, &marks, scratch)
}

// Cleans a set; `marks` and `walk_path` are lengths. Without flagged links nothing is judged.
fn clean(
    set: &mut LentSetMut<'_>,
    marks: usize,
    scratch: &mut [u8],
    walk_path: usize,
) -> Result<FileStorage, Refusal>
    ensures value { cleaning_of (outcome result) set.new.rows.now set.new.dirs.now set.new.text.now []
        scratch.new []
        ≡ cleaned_within (held set.old) marks scratch.old walk_path }
    ensures same { SameTables set.old set.new }
{
    let LentSet { fs, lent } = set.read();
    let n = links_to_judge(
        fs,
        lent.rows,
        lent.dirs,
        lent.text,
        marks,
        scratch.len(),
        walk_path,
    )?;
    if n == 0 {
        scratch.fill(0);
        return Ok(set.fs);
    }
    clean_links(set, scratch, walk_path)
}

// Cleans the links of a set: each flagged link's text is kept, becomes the text from the link's directory, or the
// link's own internal path. `marks`, `scratch` and `walk_path` are work space, which is then cleared; a refusal leaves
// it, and all else, as it was.
// Stays: it is public and is lent each table by itself (docs/DECISIONS.md, Forms 10), and the three parts of the work
// space as C lends them, one by one.
pub fn sanitize_symlinks(
    fs: FileStorage,
    rows: &mut [u64],
    dirs: &mut [u64],
    text: &mut [u8],
    marks: &mut [u8],
    scratch: &mut [u8],
    walk_path: &mut [u8],
) -> Result<FileStorage, Refusal>
    ensures { cleaning_of (outcome result) rows.new dirs.new text.new marks.new
        scratch.new walk_path.new
        ≡ clean_stored (lent fs rows.old dirs.old text.old) marks.old
        scratch.old walk_path.old }
{
    let mut set = LentSetMut {
        fs,
        rows,
        dirs,
        text,
    };
    let cleaned = clean(&mut set, marks.len(), scratch, walk_path.len())?;
    marks.fill(0);
    walk_path.fill(0);
    Ok(cleaned)
}
