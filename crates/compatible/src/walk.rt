// Two composed paths compared by their pieces in a row, run by run: no buffer is needed, and no length is summed. Relies
// on `lists`, on the tests of a join of `path` and on the laws of proofs/.
ghost use Rattle.std.specs.Prelude.{◌≡◌, [], ◌++◌};
ghost use Rattle.lists.specs.Lists.{equal};
ghost use Rattle.path.specs.Join.{appended};
ghost use Rattle.compatible.specs.private.Walk.{behind_first, bytes_of, whole_of};

// A composed path in pieces: its parts, and what stands behind the first and the second, which is a separator or
// nothing.
// Stays: each piece has a name, which says whether it is a part or what stands behind one, and by which `join` and
// `compose` write it; in an array of five slices a path of two parts and one of three would be told by places alone.
#[derive(Clone, Copy)]
pub(crate) struct Pieces<'a> {
    pub first: &'a [u8],
    pub first_end: &'a [u8],
    pub second: &'a [u8],
    pub second_end: &'a [u8],
    pub last: &'a [u8],
}

impl<'a> Pieces<'a> {
    // The pieces behind the first, in a row.
    fn behind_first(self) -> [&'a [u8]; 4]
        ensures { result ≡ behind_first self.entry }
    {
        [self.first_end, self.second, self.second_end, self.last]
    }
}

// The pieces of the path that two parts compose: a branch that stands alone is dropped.
pub(crate) fn join<'a>(branch: &'a [u8], leaf: &'a [u8]) -> Pieces<'a>
    ensures { whole_of result ≡ appended branch.now leaf.now }
{
    let (first, first_end) = path::join_prefix(branch, leaf);
    Pieces {
        first,
        first_end,
        second: b"",
        second_end: b"",
        last: leaf,
    }
}

// The pieces of the path that three parts compose. Two of them do where the first is dropped or the second is empty.
pub(crate) fn compose<'a>(first: &'a [u8], second: &'a [u8], last: &'a [u8]) -> Pieces<'a>
    ensures { whole_of result ≡ appended (appended first.now second.now) last.now }
{
    if path::is_alone(first) {
        return join(second, last);
    }
    if second.is_empty() {
        return join(first, last);
    }
    let first_end = path::separator(first, second);
    let second_end = path::separator(second, last);
    Pieces {
        first,
        first_end,
        second,
        second_end,
        last,
    }
}

// Whether the pieces of a row are all empty.
fn are_empty(row: &[&[u8]]) -> bool
    ensures { result ≡ equal [] (bytes_of row.now) }
{
    row.iter().all(|piece| piece.is_empty())
}

// Whether two rows are the same, each a piece and those behind it. A turn compares the shorter of the two pieces with as
// much of the other, and goes on with what is left of that and the next piece of the row whose piece is done. They are
// compared from the front: sets whose names differ early are told apart there.
fn same_rows<'a>(
    mut p: &'a [u8],
    mut a: &'a [&'a [u8]],
    mut q: &'a [u8],
    mut b: &'a [&'a [u8]],
) -> bool
    ensures { result ≡ equal (p.now ++ bytes_of a.now) (q.now ++ bytes_of b.now) }
{
    loop {
        if p.len() <= q.len() {
            let (front, rest) = q.split_at(p.len());
            if p != front {
                return false;
            }
            let [next, more @ ..] = a else {
                return rest.is_empty() && are_empty(b);
            };
            (p, a, q) = (next, more, rest);
        } else {
            let (front, rest) = p.split_at(q.len());
            if q != front {
                return false;
            }
            let [next, more @ ..] = b else {
                return false;
            };
            (q, b, p) = (next, more, rest);
        }
    }
}

// Whether two composed paths are the same.
pub(crate) fn same_pieces(a: Pieces<'_>, b: Pieces<'_>) -> bool
    ensures { result ≡ equal (whole_of a.entry) (whole_of b.entry) }
{
    same_rows(a.first, &a.behind_first(), b.first, &b.behind_first())
}
