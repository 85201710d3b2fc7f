// The second pass: each link whose text the first pass left to a walk is walked, and the walk decides. It relies on
// flagged.rt, front.rt, resolve.rt, mark.rt and the laws of proofs/Walks.antt, proofs/Marks.antt, proofs/Packed.antt,
// proofs/Walked.antt and proofs/Passing.antt.
ghost use Rattle.std.specs.Prelude.{◌≡◌, cond, map, ◌<◌, length, get_or, set};
ghost use Rattle.links.specs.declared.mark.LinkVerdict.TheVariants.{Keep, OwnPath};
ghost use Rattle.links.specs.Judging.{verdicts};
ghost use Rattle.links.specs.private.Walking.{verdict, first_marks_in, resolves_in, walked_mark_in, set_of};
ghost use Rattle.links.specs.private.Walking.{Bounded, WalksFrom};

use crate::flagged::Links;
use crate::front::put_frame;
use crate::mark::{LinkVerdict, VERDICT_WALK, put_verdict, reopen, verdict_at};
use crate::resolve::resolve;
use rope::Lead;
use tables::LentSet;

// Whether the text of the flagged link i leads to a file or a directory of the set. It relies on the first pass's
// leads, and leaves the marks as they were.
// Stays: marks and frames are written, and the set is read, here and below, and in resolve.rt; one record of all three
// would be lent for writing, and each clause would have to say that the set's tables are as before.
#[tactic(auto, using(crate::proofs::Marks::leads_back, crate::proofs::Packed::marks_from))]
fn walk_link(the_set: LentSet<'_>, marks: &mut [u8], frames: &mut [u32], i: usize) -> bool
    requires { WalksFrom (set_of the_set) marks.old i (length frames.old) }
    ensures value { result ≡ resolves_in (set_of the_set.entry) i }
    ensures marks_unchanged { marks.new ≡ marks.old }
{
    let lead = Lead {
        file: i as u32,
        from_directory: false,
    };
    put_frame(frames, 0, lead, false);
    let r = resolve(the_set, marks, frames);
    reopen(marks);
    r
}

// The verdict on a link that was walked: its text stays where the walk came to its end, else it becomes the link's own
// path.
fn verdict_by(resolved: bool) -> LinkVerdict
    ensures { result ≡ cond resolved Keep OwnPath }
{
    if resolved {
        LinkVerdict::Keep
    } else {
        LinkVerdict::OwnPath
    }
}

// The second pass on the flagged link i: a walk decides mark k where the first pass left it to one.
fn walk_one(the_set: LentSet<'_>, marks: &mut [u8], frames: &mut [u32], i: usize, k: usize)
    requires { WalksFrom (set_of the_set) marks.old i (length frames.old) }
    ensures { marks.new ≡ set marks.old k (walked_mark_in (set_of the_set.entry) i (get_or marks.old k 0)) }
{
    if verdict_at(marks, k) == VERDICT_WALK {
        let resolved = walk_link(the_set, marks, frames, i);
        put_verdict(marks, k, verdict_by(resolved));
    }
}

// The second pass: after it the marks say each link's verdict.
pub(crate) fn walk_links(the_set: LentSet<'_>, marks: &mut [u8], frames: &mut [u32])
    requires { (marks.old ≡ first_marks_in (set_of the_set)) × Bounded (set_of the_set) (length frames.old) }
    ensures { map verdict marks.new ≡ verdicts (set_of the_set.entry) }
{
    for (k, i) in Links::all(the_set) {
        walk_one(the_set, marks, frames, i, k);
    }
}
