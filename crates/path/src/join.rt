// Joins of paths in a lent buffer: what stands before the leaf is decided first, and the rest of the buffer behind the
// branch is lent to the writer of the leaf. Relies on split.rt for a branch that ends in a separator, on `lists` for
// copies, and on the laws of proofs/Joins.antt.
ghost use Rattle.std.specs.Prelude.{◌≡◌, cond, [], ◌++◌, length};
ghost use Rattle.path.specs.Join.{joined_says, is_alone, separator, appended, joined_if, fits, append_into};
ghost use Rattle.path.specs.Join.{combine_into};

use crate::split::is_closed;
use types::Refusal;

// Whether a path is empty or `.`, which leaves the other part of a join alone.
#[tactic(auto, using(crate::proofs::Joins::longer_stays))]
pub fn is_alone(path: &[u8]) -> bool
    ensures { result ≡ is_alone path.now }
{
    matches!(path, [] | [b'.'])
}

// What stands between a branch that a join keeps and a leaf: a separator, unless the leaf is empty or the branch ends
// in one.
pub fn separator<'a>(branch: &[u8], leaf: &[u8]) -> &'a [u8]
    ensures { result.now ≡ separator branch.now leaf.now }
{
    if leaf.is_empty() || is_closed(branch) {
        b""
    } else {
        b"/"
    }
}

// What a join by `append_path` has before the leaf: the branch, and what stands between the two. Neither is there where
// the branch is empty or `.`.
pub fn join_prefix<'a, 'b>(branch: &'a [u8], leaf: &[u8]) -> (&'a [u8], &'b [u8])
    ensures branch { result.0.now ≡ cond (is_alone branch.now) [] branch.now }
    ensures separator { result.1.now ≡ cond (is_alone branch.now) [] (separator branch.now leaf.now) }
{
    if is_alone(branch) {
        (b"", b"")
    } else {
        (branch, separator(branch, leaf))
    }
}

// The length of a branch and a leaf joined as by `append_path`. Slices of bytes are shorter than 2 ^ 63, so
// the sum fits.
#[tactic(auto, using(crate::proofs::Joins::length_parts, crate::proofs::Joins::separator_short))]
pub fn joined_length(branch: &[u8], leaf: &[u8]) -> usize
    ensures { result ≡ length (appended branch.now leaf.now) }
{
    let (kept, separator) = join_prefix(branch, leaf);
    kept.len() + (separator.len() + leaf.len())
}

// Writes a separator, or nothing, and a leaf to the start of `rest`, and gives the length of both.
// Stays: tried, std's `copy_from_slice`; the archive for C would need memmove from outside, which it did not before. The
// buffer is lent, and a refusal leaves it untouched, as no `write!` does.
fn put_leaf(rest: &mut [u8], separator: &[u8], leaf: &[u8]) -> Result<usize, Refusal>
    ensures { joined_says result rest.new
        ≡ joined_if (fits (separator.now ++ leaf.now) rest.old) (separator.now ++ leaf.now) rest.old }
{
    let n = separator.len() + leaf.len();
    if rest.len() < n {
        return Err(Refusal::NoRoom);
    }
    lists::copy_in(rest, separator);
    lists::copy_after(rest, separator.len(), leaf);
    Ok(n)
}

// Appends `leaf` to the branch that stands in the first `used` bytes of `buf`, and gives the length
// of the joined path.
// Stays: document 01 asks that a part is written behind what stands in the lent buffer, and a leaf takes the place of
// a branch that is empty or `.`, so that the whole buffer is needed.
pub fn append_path(buf: &mut [u8], used: usize, leaf: &[u8]) -> Result<usize, Refusal>
    ensures { joined_says result buf.new ≡ append_into buf.old used leaf.now }
{
    let branch = buf.get(..used).ok_or(Refusal::NoRoom)?;
    let (kept, separator) = join_prefix(branch, leaf);
    let at = kept.len();
    Ok(at + put_leaf(&mut buf[at..], separator, leaf)?)
}

// Writes the path of `left` and `right` to the start of `buf`, and gives its length: `join_path` where a `right` that
// is `.` leaves a kept `left` alone.
pub fn combine_path(left: &[u8], right: &[u8], buf: &mut [u8]) -> Result<usize, Refusal>
    ensures { joined_says result buf.new ≡ combine_into left.now right.now buf.old }
{
    if is_alone(right) && !is_alone(left) {
        return join_path(left, b"", buf);
    }
    join_path(left, right, buf)
}

// Writes `leaf` appended to `branch` to the start of `buf`, and gives its length: `append_path` where
// the branch doesn't stand in the buffer yet.
// Stays: the branch is copied by `lists`, as in `put_leaf`.
pub fn join_path(branch: &[u8], leaf: &[u8], buf: &mut [u8]) -> Result<usize, Refusal>
    ensures { joined_says result buf.new
        ≡ joined_if (fits (appended branch.now leaf.now) buf.old) (appended branch.now leaf.now) buf.old }
{
    let (kept, separator) = join_prefix(branch, leaf);
    let (front, rest) = buf.split_at_mut_checked(kept.len()).ok_or(Refusal::NoRoom)?;
    let n = put_leaf(rest, separator, leaf)?;
    lists::copy_in(front, kept);
    Ok(front.len() + n)
}
