// The front of a path, and its bytes in a buffer where they fit, so that most comparisons are between slices. It relies
// on `rope`, `lookup` and the laws of proofs/Heads.antt.
ghost use Rattle.std.specs.Prelude.{◌≡◌, ◌≤◌, length, take};
ghost use Rattle.lists.specs.Lists.{equal};
ghost use Rattle.tables.specs.Span.{text_at};
ghost use Rattle.tables.specs.Rows.{dir_at};
ghost use Rattle.lookup.specs.Lookup.{covers};
ghost use Rattle.rope.specs.Rope.{held};
ghost use Rattle.links.specs.private.Walking.{Fronted, front_of, own_text};

use rope::Path;
use tables::FileStorage;

// The bytes of the longest front that is copied to a buffer.
pub(crate) const HEAD_SIZE: usize = 4096;

// The first e bytes of a path, and these bytes in a buffer where they fit, with the record of the set in which they are
// sought.
#[derive(Clone, Copy)]
pub(crate) struct Front<'a> {
    pub fs: FileStorage,
    pub path: Path<'a>,
    pub e: usize,
    pub head: Option<&'a [u8]>,
    ghost fronted: { Fronted path e head },
}

// Writes the first bytes of the path over a slice that is no longer than the path.
// Stays: std's `fill_with` writes; the bytes are those of many texts, so there is no one slice to copy from.
fn put_head(path: Path<'_>, head: &mut [u8])
    requires { length head.old ≤ length (held path) }
    ensures { head.new ≡ front_of path.entry (length head.old) }
{
    let mut bytes = path.bytes_from(0);
    head.fill_with(move || bytes.next().unwrap_or(0));
}

impl<'a> Front<'a> {
    // The first e bytes of a path; they are written to the buffer where they fit.
    pub(crate) fn new(fs: FileStorage, path: Path<'a>, e: usize, buf: &'a mut [u8]) -> Front<'a>
        requires { e ≤ length (held path) }
        ensures set { result.fs ≡ fs }
        ensures path { result.path ≡ path.entry }
        ensures end { result.e ≡ e }
    {
        let head = if e <= buf.len() {
            put_head(path, &mut buf[..e]);
            Some(&buf[..e])
        } else {
            None
        };
        Front { fs, path, e, head }
    }
}

impl Front<'_> {
    // Whether directory d covers it.
    pub(crate) fn is_covered(self, d: usize) -> bool
        ensures { result
            ≡ covers (text_at self.entry.path.lent.text.now (dir_at self.entry.path.lent.dirs.now d))
            (front_of self.entry.path self.entry.e) }
    {
        let lent = self.path.lent;
        match self.head {
            Some(head) => lookup::covers(lent.dirs, lent.text, d, head),
            None => {
                let dir = tables::text_at(lent.text, tables::dir_at(lent.dirs, d));
                self.path.is_covered(dir, self.e)
            }
        }
    }

    // Whether it is the internal path of file i. It is taken into the scan over the files that calls it, and with it
    // the test of the file's name, by which most files are passed; what compares a whole path is a call of its own.
    #[inline(always)]
    #[tactic(auto, using(rope::proofs::Fronting::front_is))]
    pub(crate) fn is_own(self, i: usize) -> bool
        ensures { result
            ≡ equal (own_text self.entry.path.lent i) (front_of self.entry.path self.entry.e) }
    {
        let lent = self.path.lent;
        match self.head {
            Some(head) => lookup::own_is(lent.rows, lent.dirs, lent.text, i, head),
            None => self.path.is_own(i, self.e),
        }
    }
}
