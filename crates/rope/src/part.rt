// Whether the first bytes of a path are a file's path, or a directory's. They rely on frame.rt, bytes.rt and the laws
// of proofs/Comparing.antt and proofs/Fronting.antt.
ghost use Rattle.std.specs.Prelude.{◌≡◌, [], drop};
ghost use Rattle.path.specs.Join.{appended};
ghost use Rattle.tables.specs.Rows.{row_at};
ghost use Rattle.tables.specs.Model.{internal_path};
ghost use Rattle.lookup.specs.Lookup.{covers};
ghost use Rattle.rope.specs.Rope.{held, is_front, covers_front};

use crate::frame::Path;

// Whether the directory d ends at place e, or has a separator there.
fn is_end(d: &[u8], e: usize) -> bool
    ensures { result ≡ covers (drop e d.now) [] }
{
    d.len() <= e || d[e] == b'/'
}

impl Path<'_> {
    // Whether a directory and a name joined are the first e bytes of the path: the lengths first, then byte by byte.
    // Stays: lookup's `joins_to`, `is_covered` and `row_joins_to` ask this of a slice. A path in frames stands nowhere
    // as one, here and below.
    fn is_joined(self, d: &[u8], n: &[u8], e: usize) -> bool
        ensures { result ≡ is_front (appended d.now n.now) (held self.entry) e }
    {
        let (kept, separator) = path::join_prefix(d, n);
        let joined = kept.iter().chain(separator).chain(n).copied();
        path::joined_length(d, n) == e && joined.eq(self.bytes_from(0).take(e))
    }

    // Whether the path has e bytes and the directory d covers them.
    #[tactic(auto, using(crate::proofs::Fronting::covering))]
    pub fn is_covered(self, d: &[u8], e: usize) -> bool
        ensures { result ≡ covers_front d.now (held self.entry) e }
    {
        e <= d.len() && is_end(d, e) && self.is_joined(b"", &d[..e], e)
    }

    // Whether the internal path of file i is the first e bytes of the path. It is a call of its own, since a scan asks
    // it only where the front is longer than the buffer that links copies it to (`HEAD_SIZE`).
    #[inline(never)]
    pub fn is_own(self, i: usize, e: usize) -> bool
        ensures { result
            ≡ is_front
            (internal_path self.entry.lent.dirs.now self.entry.lent.text.now
            (row_at self.entry.lent.rows.now i))
            (held self.entry) e }
    {
        let row = tables::row_at(self.lent.rows, i);
        let d = self.lent.directory_of(row);
        self.is_joined(d, tables::text_at(self.lent.text, row.name), e)
    }
}
