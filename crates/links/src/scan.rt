// What stands at the front of a path: directories, files, and links by the leads that say which are open. They rely on
// flagged.rt, head.rt, mark.rt, `lookup` and the laws of proofs/Scans.antt and proofs/Passing.antt.
ghost use Rattle.std.specs.Prelude.{◌≡◌, true, false, cond, map, ◌+◌, ◌-◌, ◌<◌, ◌≤◌, ltb, get_or, drop};
ghost use Rattle.std.specs.Prelude.{IfSome, unwrap_or};
ghost use Rattle.lists.specs.Lists.{equal};
ghost use Rattle.lookup.specs.Lookup.{is_directory, file_at, known, entries_of, directories_of};
ghost use Rattle.lookup.specs.private.Rows.{entry_at, entries_from};
ghost use Rattle.links.specs.private.Walking.{lead, any_at, lead_mark, store_in, front_of, own_text};

use crate::flagged::Links;
use crate::head::Front;
use crate::mark::lead_at;
use lookup::{Seen, seen_as};

// Whether a directory of the set covers the front.
// Stays: lookup's `is_directory` and `file_at` are these scans for a path in a slice, and a front may stand nowhere as
// one; passed the test, one function for both would be no shorter than the chain, here and below.
pub(crate) fn dir_in(front: Front<'_>) -> bool
    ensures { result
        ≡ is_directory (directories_of (store_in front.entry.fs front.entry.path.lent))
        (front_of front.entry.path front.entry.e) }
{
    (0..front.fs.num_paths).any(|d| front.is_covered(d))
}

// What stands at the front. Of files with one internal path the last counts, so it goes from the last to the first.
pub(crate) fn file_in(front: Front<'_>) -> Seen
    ensures { result
        ≡ file_at (entries_of (store_in front.entry.fs front.entry.path.lent))
        (front_of front.entry.path front.entry.e) }
{
    let found = (0..front.fs.num_files).rev().find(|i| front.is_own(*i));
    seen_as(front.path.lent.rows, found)
}

// Whether a file or a directory of the set stands at the front.
pub(crate) fn known_in(front: Front<'_>) -> bool
    ensures { result
        ≡ known (entries_of (store_in front.entry.fs front.entry.path.lent))
        (directories_of (store_in front.entry.fs front.entry.path.lent))
        (front_of front.entry.path front.entry.e) }
{
    file_in(front) != Seen::Nothing || dir_in(front)
}

// Whether the flagged link i leads on, by mark k, and stands at the front, traversed or not.
// Stays: a link and its mark are the pair that `Links` gives, here and below and in second.rt; a record of the two
// would be opened at once by each of these.
fn is_link_at(front: Front<'_>, marks: &[u8], i: usize, k: usize) -> bool
    ensures { result
        ≡ cond (ltb 0 (get_or (map lead marks.now) k 0))
        (equal (own_text front.entry.path.lent i) (front_of front.entry.path front.entry.e))
        false }
{
    lead_at(marks, k) != 0 && front.is_own(i)
}

// Whether a link from file i0 and mark k0 on leads on at the front, traversed or not.
// Stays: a file and a mark are where a walk over the flagged links begins, here and below; a record of the two would be
// made for `Links::starting_at` and taken apart there.
fn has_link(front: Front<'_>, marks: &[u8], i0: usize, k0: usize) -> bool
    requires { k0 ≤ i0 }
    ensures { result
        ≡ any_at (entries_from (store_in front.entry.fs front.entry.path.lent) (front.entry.fs.num_files - i0) i0)
        (drop k0 (map lead marks.now))
        (front_of front.entry.path front.entry.e) }
{
    let mut links = Links::starting_at(front.fs, front.path.lent.rows, i0, k0);
    links.any(|(k, i)| is_link_at(front, marks, i, k))
}

// The lead of the flagged link i with mark k, if a walk may go through that link at the front and none later is there.
pub(crate) fn lead_mark(front: Front<'_>, marks: &[u8], i: usize, k: usize) -> Option<u8>
    requires { (i < front.fs.num_files)
        × (k ≤ i)
        × ((entry_at (store_in front.fs front.path.lent) i).flagged ≡ true) }
    ensures value { unwrap_or result 0
        ≡ lead_mark (entry_at (store_in front.entry.fs front.entry.path.lent) i)
        (get_or (map lead marks.now) k 0)
        (front_of front.entry.path front.entry.e)
        (any_at
        (entries_from (store_in front.entry.fs front.entry.path.lent) (front.entry.fs.num_files - (i + 1)) (i + 1))
        (drop (k + 1) (map lead marks.now))
        (front_of front.entry.path front.entry.e)) }
    ensures result_bound { IfSome result (λ m. (0 < m) × (m ≤ 2)) }
{
    let m = lead_at(marks, k);
    (0 < m && m <= 2 && front.is_own(i) && !has_link(front, marks, i + 1, k + 1)).then_some(m)
}
