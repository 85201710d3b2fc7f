// The first pass: a mark for each flagged link. It relies on flagged.rt and mark.rt, on `lookup` for what stands at a
// path, on front.rt, head.rt and scan.rt for what stands at the text from a link's directory, and on the laws of
// proofs/Marking.antt and proofs/Passing.antt.
ghost use Rattle.std.specs.Prelude.{◌≡◌, ◌≤◌};
ghost use Rattle.std.proofs.lemmas.List.Edits.{sets};
ghost use Rattle.lookup.specs.Lookup.{is_directory, file_at, entries_of, directories_of};
ghost use Rattle.lookup.specs.private.Rows.{entry_at};
ghost use Rattle.links.specs.Judging.{walk_decides, settled_mark, relative_mark};
ghost use Rattle.links.specs.private.Walking.{first_mark_in, first_marks_in, store_in, set_of, front_of};

use crate::flagged::Links;
use crate::front::put_frame;
use crate::head::{Front, HEAD_SIZE};
use crate::mark::{
    FROM_DIRECTORY, FROM_DIRECTORY_AND_LEADS, KEEPS_TEXT, KEEPS_TEXT_AND_LEADS, OWN_PATH_TAKEN,
    WALK_DECIDES,
};
use crate::scan::{dir_in, file_in};
use lookup::{Seen, file_at, is_directory, link_text};
use rope::{FRAME_WIDTH, Lead, Path, lead_length};
use tables::LentSet;

// The mark of a link whose text from its directory is the front.
// Stays: a mark is one byte that holds a verdict and a lead (mark.rt). An enum of the marks that the first pass sets
// would be turned into that byte at once, since a walk changes leads, and a mark is then none of these.
fn settled_mark(front: Front<'_>) -> u8
    ensures { result
        ≡ settled_mark
        (is_directory (directories_of (store_in front.entry.fs front.entry.path.lent))
        (front_of front.entry.path front.entry.e))
        (file_at (entries_of (store_in front.entry.fs front.entry.path.lent))
        (front_of front.entry.path front.entry.e))
        walk_decides }
{
    if dir_in(front) {
        return FROM_DIRECTORY_AND_LEADS;
    }
    match file_in(front) {
        Seen::FlaggedLink => FROM_DIRECTORY_AND_LEADS,
        Seen::RegularFile => FROM_DIRECTORY,
        Seen::Nothing => WALK_DECIDES,
    }
}

// The mark of link i, whose text names nothing of the set as given: its text from its directory is a path of one frame.
fn relative_mark(the_set: LentSet<'_>, i: u16) -> u8
    ensures { result
        ≡ relative_mark (entries_of (set_of the_set.entry)) (directories_of (set_of the_set.entry))
        (entry_at (set_of the_set.entry) i).directory
        (entry_at (set_of the_set.entry) i).text walk_decides }
{
    let row = tables::row_at(the_set.lent.rows, i as usize);
    if tables::is_inside(row.path_index) {
        let lead = Lead {
            file: u32::from(i),
            from_directory: true,
        };
        let mut frames = [0u32; FRAME_WIDTH];
        put_frame(&mut frames, 0, lead, false);
        let path = Path::new(the_set.lent, &frames, 1);
        let e = lead_length(the_set.lent, lead);
        let mut buf = [0u8; HEAD_SIZE];
        let front = Front::new(the_set.fs, path, e, &mut buf);
        return settled_mark(front);
    }
    WALK_DECIDES
}

// The mark of file i.
fn first_mark(the_set: LentSet<'_>, i: u16) -> u8
    ensures { result ≡ first_mark_in (set_of the_set.entry) i }
{
    let lent = the_set.lent;
    let t = link_text(lent.text, tables::row_at(lent.rows, i as usize));
    if path::is_complete(t) {
        return OWN_PATH_TAKEN;
    }
    match file_at(the_set.fs, lent.rows, lent.dirs, lent.text, t) {
        Seen::FlaggedLink => KEEPS_TEXT_AND_LEADS,
        Seen::RegularFile => KEEPS_TEXT,
        Seen::Nothing => {
            if is_directory(the_set.fs, lent.dirs, lent.text, t) {
                return KEEPS_TEXT_AND_LEADS;
            }
            relative_mark(the_set, i)
        }
    }
}

// Sets the first pass's marks, one for each flagged link.
pub(crate) fn first_marks(the_set: LentSet<'_>, marks: &mut [u8])
    requires { the_set.fs.num_files ≤ 65535 }
    ensures { marks.new ≡ sets marks.old 0 (first_marks_in (set_of the_set.entry)) }
{
    for (k, i) in Links::all(the_set) {
        let m = first_mark(the_set, i as u16);
        lists::put(marks, k, m);
    }
}
