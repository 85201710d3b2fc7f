// The search for an addition's directories among those stored, from the back, as in
// `get_or_add_path`. Relies on the accessors of `tables` and the laws of proofs/Directories.antt.
ghost use Rattle.std.specs.Prelude.{◌≡◌, ℕ, ◌+◌, ◌/◌, ◌<◌, ◌≤◌, false, ◌&&◌, length, IfSome, unwrap_or};
ghost use Rattle.lists.specs.Lists.{equal};
ghost use Rattle.tables.specs.Span.{text_at};
ghost use Rattle.tables.specs.Rows.{dir_width};
ghost use Rattle.tables.specs.Model.{stored};
ghost use Rattle.rules.specs.Bounds.{max_entries};
ghost use Rattle.additions.specs.Addition.{pad_directory_name};
ghost use Rattle.plan.specs.Write.{directory_index_from, directory_index};
ghost use Rattle.additions.specs.private.Texts.{directory_at};
ghost use Rattle.plan.specs.private.Steps.{dir_texts, dir_plan_of, pad_dir_plan_of, dirs_with};
ghost use Rattle.plan.specs.private.Steps.{known_at, added_at, plan_among};

use additions::PathKind;
use tables::{DIR_WIDTH, Span};

// The path index of a directory, the length of its text where it is new, and how many directories there are with it.
#[derive(Clone, Copy)]
pub(crate) struct DirPlan {
    pub index: u64,
    pub new: Option<usize>,
    pub count: usize,
}

impl DirPlan {
    // A directory that is stored already, or none, beside `count` stored ones.
    fn known(index: u64, count: usize) -> DirPlan
        ensures { result ≡ known_at index count }
    {
        DirPlan {
            index,
            new: None,
            count,
        }
    }

    // A new directory with a text of `len` bytes, after `count` stored ones.
    fn added(count: usize, len: usize) -> DirPlan
        requires { count ≤ max_entries + 1 }
        ensures { result ≡ added_at count len }
    {
        DirPlan {
            index: count as u64,
            new: Some(len),
            count: count + 1,
        }
    }
}

// Whether a span's text is `dir`; where the area's end cannot cut a longer span to its length, the two lengths are
// compared before the text is read.
// Stays: tried, with `lists::same` of `tables::text_at` alone, an addition to a v1 set of 50 directories takes 221 ns,
// and so 172; the Rust takes 180 to 195 (docs/BENCHMARKS.md).
fn is_text(text: &[u8], s: Span, dir: &[u8]) -> bool
    ensures { result ≡ equal dir.now (text_at text.now s) }
{
    let n = dir.len();
    if s.at < text.len().saturating_sub(n) {
        return s.len == n && lists::same(dir, &text[s.at..s.at + n]);
    }
    lists::same(dir, tables::text_at(text, s))
}

// The index of the last directory whose text is `dir`. It is a call of its own: taken into an addition, its loop finds
// few registers free.
#[inline(never)]
fn find_among(dirs: &[u64], text: &[u8], dir: &[u8]) -> Option<usize>
    ensures bound { IfSome result (λ k. k < length dirs.now / dir_width) }
    ensures value { (n : ℕ) → unwrap_or result n
        ≡ directory_index_from n 0 dir.now (dir_texts dirs.now text.now (length dirs.now / dir_width)) }
{
    let (rows, _) = dirs.as_chunks::<DIR_WIDTH>();
    rows.iter()
        .rposition(|&row| is_text(text, Span::from(row), dir))
}

// Whether a file's new directory is the pads' own.
fn is_pads(new: bool, dir: &[u8]) -> bool
    ensures { result ≡ (new && equal pad_directory_name dir.now) }
{
    new && lists::same(b".pad", dir)
}

// The directories that are stored: the texts of the first `count` rows, in the text area.
// Stays: the contracts read rows past the table's end as empty texts, and `count` may pass it, where no slice of so
// many rows could be lent.
#[derive(Clone, Copy)]
pub(crate) struct Stored<'a> {
    pub dirs: &'a [u64],
    pub text: &'a [u8],
    pub count: usize,
    ghost few: { count ≤ max_entries },
}

impl Stored<'_> {
    // The index of the last directory whose text is `dir`. The last row is looked at here, so that an addition to the
    // directory that was stored last pays no search, and by `lists::same` alone, so that `is_text` has one caller,
    // which takes it in. Rows past the table's end have the empty text, as the last one then has, so only those in the
    // table are left to search.
    fn find(&self, dir: &[u8]) -> Option<usize>
        ensures bound { IfSome result (λ k. k < self.now.count) }
        ensures value { unwrap_or result self.now.count
            ≡ directory_index dir.now (dir_texts self.now.dirs.now self.now.text.now self.now.count) }
    {
        let last = self.count.checked_sub(1)?;
        let text = tables::text_at(self.text, tables::dir_at(self.dirs, last));
        if lists::same(dir, text) {
            return Some(last);
        }
        let n = last.min(self.dirs.len() / DIR_WIDTH);
        find_among(&self.dirs[..n * DIR_WIDTH], self.text, dir)
    }

    // A directory with that text, which is new where no row has it, where there are `count` directories before it.
    // Stays: `count` is a number of directories, and not of bytes of `dir`.
    fn plan_stored(&self, dir: &[u8], count: usize) -> DirPlan
        requires { count ≤ max_entries + 1 }
        ensures { result
            ≡ plan_among dir.now count (dir_texts self.now.dirs.now self.now.text.now self.now.count) }
    {
        match self.find(dir) {
            Some(k) => DirPlan::known(k as u64, count),
            None => DirPlan::added(count, dir.len()),
        }
    }

    // A file's directory.
    // Stays: a kind of path is data, and no step to run.
    #[tactic(auto, using(crate::proofs::Directories::planning))]
    pub(crate) fn plan(&self, kind: PathKind, dir: &[u8]) -> DirPlan
        ensures { result
            ≡ dir_plan_of (directory_at kind dir.now)
            (dir_texts self.now.dirs.now self.now.text.now self.now.count) }
    {
        match kind {
            PathKind::Single => DirPlan::known(tables::NO_PATH, self.count),
            PathKind::Absolute => DirPlan::known(tables::PATH_IS_ABSOLUTE, self.count),
            PathKind::Inside | PathKind::Outside => self.plan_stored(dir, self.count),
        }
    }

    // The directory of the pad, where one follows a file, whose own directory is new or not.
    // Stays: it asks of the pad's size only whether there is one. Tried, a `DirPlan` from here, and in `plan_dirs` a
    // closure that calls for it by `addition.sizes.pad.map`: that this gives `pad_dir_plan_of` stayed open there.
    #[tactic(auto, using(crate::proofs::Directories::padding))]
    pub(crate) fn plan_pad(&self, pad: Option<u64>, new: bool, dir: &[u8]) -> Option<DirPlan>
        ensures { result
            ≡ pad_dir_plan_of pad
            (dirs_with new dir.now (dir_texts self.now.dirs.now self.now.text.now self.now.count)) }
    {
        pad?;
        let count = self.count + usize::from(new);
        if is_pads(new, dir) {
            return Some(DirPlan::known(self.count as u64, count));
        }
        Some(self.plan_stored(b".pad", count))
    }
}
