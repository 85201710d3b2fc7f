// `judge_links`: what becomes of each flagged link's text. Refusals are decided before anything is written; then the
// first pass marks, and walks decide the rest, with frames in a local array. It relies on first.rt, second.rt, `lookup`
// and the laws of proofs/Judgements.antt.
ghost use Rattle.std.specs.Prelude.{◌&&◌, ◌≡◌, map, ◌*◌, ◌^◌, ◌<◌, ◌≤◌, length};
ghost use Rattle.types.specs.Refusals.{outcome};
ghost use Rattle.rules.specs.Rules.{outcome_of};
ghost use Rattle.rules.specs.Questions.{rows_are_held, dirs_held, text_held, few_entries};
ghost use Rattle.lookup.specs.Space.{space, link_count};
ghost use Rattle.lookup.specs.Lookup.{lent, files_in, entries_of};
ghost use Rattle.links.specs.Judging.{verdicts, judging_number, judged_of, judged};
ghost use Rattle.links.specs.private.Walking.{verdict, set_of};

use crate::first::first_marks;
use crate::second::walk_links;
use lookup::{count_links, lacks_space};
use rules::Tests;
use tables::{FileStorage, LentSet};
use types::Refusal;

// The number of links to judge, or why none are judged. `marks`, `scratch` and `walk_path` are the lengths of the work
// space that a cleaning is lent.
// Stays: public functions are lent each table by itself, as most of them read only some (docs/DECISIONS.md), here and
// in `judge_links`. The three lengths are those of buffers that C lends to a cleaning one by one, and no function makes
// or keeps all three as one.
pub fn links_to_judge(
    fs: FileStorage,
    rows: &[u64],
    dirs: &[u64],
    text: &[u8],
    marks: usize,
    scratch: usize,
    walk_path: usize,
) -> Result<usize, Refusal>
    ensures { outcome result ≡ outcome_of
        (judging_number (lent fs rows.now dirs.now text.now) marks scratch
        walk_path)
        (link_count (files_in fs rows.now dirs.now text.now)) }
{
    let set = LentSet::new(fs, rows, dirs, text);
    Tests::of_set(fs, rules::holds_set(set)).first_refusal()?;
    if lacks_space(fs, rows, dirs, text, marks, scratch, walk_path) {
        return Err(Refusal::NoRoom);
    }
    Ok(count_links(fs, rows))
}

// Leaves of each mark the verdict alone.
fn keep_verdicts(marks: &mut [u8])
    ensures { marks.new ≡ map verdict marks.old }
{
    for mark in marks.iter_mut() {
        *mark /= 8;
    }
}

// Judges all flagged links, with one mark for each. A walk has 65536 frames: one for the text that is walked, and one
// for each of 65535 links.
fn judge(the_set: LentSet<'_>, marks: &mut [u8])
    requires { (length marks.old ≡ link_count (entries_of (set_of the_set)))
        × (the_set.fs.num_files ≤ 65535)
        × (2 * space (entries_of (set_of the_set)) < 2 ^ 64) }
    ensures { marks.new ≡ verdicts (set_of the_set.entry) }
{
    let mut frames = [0u32; 196608];
    first_marks(the_set, marks);
    walk_links(the_set, marks, &mut frames);
    keep_verdicts(marks);
}

// Judges the flagged links of a set: gives their number, and sets mark n to the verdict on the n-th, which `verdict_in`
// reads. `scratch` and `walk_path` are the lengths of the work space that a cleaning is lent. A refusal leaves the
// marks as they were.
pub fn judge_links(
    fs: FileStorage,
    rows: &[u64],
    dirs: &[u64],
    text: &[u8],
    marks: &mut [u8],
    scratch: usize,
    walk_path: usize,
) -> Result<usize, Refusal>
    ensures { judged_of (outcome result) marks.new
        ≡ judged (lent fs rows.now dirs.now text.now) marks.old scratch
        walk_path }
{
    let n = links_to_judge(fs, rows, dirs, text, marks.len(), scratch, walk_path)?;
    judge(LentSet::new(fs, rows, dirs, text), &mut marks[..n]);
    Ok(n)
}
