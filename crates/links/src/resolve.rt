// The walk of a path through directories and links. It relies on flagged.rt, scan.rt, front.rt, cut.rt, head.rt,
// mark.rt and the laws of proofs/Events.antt, proofs/Turning.antt, proofs/Scans.antt and proofs/Passing.antt.
ghost use Rattle.std.specs.Prelude.{◌≡◌, map};
ghost use Rattle.lookup.specs.Lookup.{entries_of, directories_of};
ghost use Rattle.links.specs.Clean.{part_end};
ghost use Rattle.links.specs.private.Walking.{lead, verdict, untraversed, set_of, path_of, walk_of, Walkable};

use crate::cut::cut_in;
use crate::flagged::Links;
use crate::front::Frames;
use crate::head::{Front, HEAD_SIZE};
use crate::mark::{LEADS_FROM_DIRECTORY, put_lead};
use crate::scan::{known_in, lead_mark};
use rope::Lead;
use tables::LentSet;

// Walks the path that the first frame holds: whether it comes to a file or a directory of the set. Links that it goes
// through are marked as used.
pub(crate) fn resolve(the_set: LentSet<'_>, marks: &mut [u8], frames: &mut [u32]) -> bool
    requires { Walkable (set_of the_set) (map lead marks.old) frames.old }
    ensures value { result
        ≡ walk_of (entries_of (set_of the_set.entry)) (directories_of (set_of the_set.entry)) (map lead marks.old)
        (path_of (set_of the_set.entry) frames.old 1)
        (part_end (path_of (set_of the_set.entry) frames.old 1) 0) }
    ensures marks_unchanged { map untraversed (map lead marks.new) ≡ map untraversed (map lead marks.old) }
    ensures marks_unchanged_2 { map verdict marks.new ≡ map verdict marks.old }
{
    let mut buf = [0u8; HEAD_SIZE];
    let lent = the_set.lent;
    let mut stack = Frames {
        words: frames,
        depth: 1,
    };
    let mut e = cut_in(stack.path(lent), 0);
    // Stays: document 01 asks for this labelled exit from the nested scan.
    'walk: while stack.path(lent).has_byte(e) {
        let path = stack.path(lent);
        let front = Front::new(the_set.fs, path, e, &mut buf);
        for d in 0..the_set.fs.num_paths {
            if front.is_covered(d) {
                let next = cut_in(path, e + 1);
                if next <= e {
                    break 'walk;
                }
                e = next;
                continue 'walk;
            }
        }
        for (k, i) in Links::all(the_set) {
            if let Some(m) = lead_mark(front, marks, i, k) {
                // Link i leads on: its text stands for the front and the separator after it, and it is used.
                put_lead(marks, k, m + 2);
                let lead = Lead {
                    file: i as u32,
                    from_directory: m == LEADS_FROM_DIRECTORY,
                };
                stack.go_through(lent, e, lead);
                e = cut_in(stack.path(lent), 0);
                continue 'walk;
            }
        }
        break;
    }
    let path = stack.path(lent);
    if path.has_byte(e) {
        return false;
    }
    let front = Front::new(the_set.fs, path, e, &mut buf);
    known_in(front)
}
