// The texts of all links, by their verdicts: first the old text of each link whose verdict is its own path is removed,
// then each new text is written. Relies on `texts` for one link's text, on `lookup` for a flagged link, on `links` for
// a mark's verdict and on the laws of proofs/Passes.antt.
ghost use Rattle.std.specs.Prelude.{◌≡◌, length};
ghost use Rattle.tables.specs.Lending.{held, SameTables};
ghost use Rattle.lookup.specs.Lookup.{lent};
ghost use Rattle.texts.specs.Texts.{with_own};
ghost use Rattle.cleaning.specs.Cleaning.{emptied_at, emptied, rewritten_at, rewritten};
ghost use Rattle.cleaning.specs.private.Writing.{all_verdicts, passed, step_at};

use links::LinkVerdict;
use tables::{FileStorage, LentSetMut};

// Writes the own path of link i as its text, with all tables lent for writing.
// Stays: a call in `write_link` of `texts::write_own`, which reads the directories, would read one field of the set
// while others are lent for writing; the borrow checker has no rule for that.
fn write_own(
    fs: FileStorage,
    rows: &mut [u64],
    dirs: &mut [u64],
    text: &mut [u8],
    i: usize,
) -> FileStorage
    ensures { lent result rows.new dirs.new text.new
        ≡ with_own (lent fs rows.old dirs.old text.old) i }
{
    texts::write_own(fs, rows, dirs, text, i)
}

// Writes the new text of file i, by its verdict.
// Stays: set, scratch space and file are passed on to `texts`, here and below: a record of them would hold a `&mut` of
// a record of `&mut`s, made for each link and taken apart there.
fn write_link(set: &mut LentSetMut<'_>, scratch: &mut [u8], i: usize, verdict: LinkVerdict)
    ensures after { held set.new ≡ rewritten_at (length scratch.old) verdict (held set.old) i }
    ensures same { SameTables set.old set.new }
{
    // Stays: it matches an enum, and each of its three cases is one line; a closure for each verdict would be no
    // plainer.
    match verdict {
        LinkVerdict::Keep => {}
        LinkVerdict::OwnPath => {
            let fs = set.fs;
            set.fs = write_own(fs, set.rows, set.dirs, set.text, i);
        }
        LinkVerdict::FromDirectory => texts::write_beside(set, scratch, i),
    }
}

// Removes the old text of file i, where its verdict is the link's own path.
fn empty_link(set: &mut LentSetMut<'_>, i: usize, verdict: LinkVerdict)
    ensures after { held set.new ≡ emptied_at verdict (held set.old) i }
    ensures same { SameTables set.old set.new }
{
    match verdict {
        LinkVerdict::OwnPath => texts::empty_text(set, i),
        LinkVerdict::Keep | LinkVerdict::FromDirectory => {}
    }
}

// Takes the step of one pass at file i, by its verdict: removes the old text, or writes the new one.
// Stays: the switch is a constant, so each pass has its one step and tests nothing. A step passed as `impl Fn` would
// bring its clauses on the set before and after into `pass`, where `step_at` now says both steps in one equation.
fn step<const EMPTIES: bool>(
    set: &mut LentSetMut<'_>,
    scratch: &mut [u8],
    i: usize,
    verdict: LinkVerdict,
)
    ensures after { held set.new ≡ step_at EMPTIES (length scratch.old) verdict (held set.old) i }
    ensures same { SameTables set.old set.new }
{
    if EMPTIES {
        empty_link(set, i, verdict)
    } else {
        write_link(set, scratch, i, verdict)
    }
}

// Takes the step of one pass at each flagged link that has a mark, by the mark's verdict.
// Stays: it counts the files, since a step writes the rows, which an iterator over the flagged links would hold
// borrowed.
fn pass<const EMPTIES: bool>(set: &mut LentSetMut<'_>, marks: &[u8], scratch: &mut [u8])
    ensures after { held set.new
        ≡ passed (step_at EMPTIES (length scratch.old)) (all_verdicts (held set.old) marks.now) 0
        (held set.old) }
    ensures same { SameTables set.old set.new }
{
    let mut marks_left = marks.iter();
    for i in 0..set.fs.num_files {
        if lookup::is_link(set.read().lent.rows, i)
            && let Some(mark) = marks_left.next()
        {
            step::<EMPTIES>(set, scratch, i, LinkVerdict::from(*mark));
        }
    }
}

// Removes the old texts of all files and writes their new ones.
pub(crate) fn rewrite_links(set: &mut LentSetMut<'_>, marks: &[u8], scratch: &mut [u8])
    ensures after { held set.new
        ≡ rewritten (length scratch.old) (all_verdicts (held set.old) marks.now) 0
        (emptied (all_verdicts (held set.old) marks.now) 0 (held set.old)) }
    ensures same { SameTables set.old set.new }
{
    pass::<true>(set, marks, scratch);
    pass::<false>(set, marks, scratch);
}
