// A path composed of four parts in a lent buffer, by the rule of `append_path`. Parts that a later join drops
// are left out before anything is written, then the length is tested, and each part is written after those
// before it. Relies on the joins of `path` and on the laws of proofs/Composed.antt.
ghost use Rattle.std.specs.Prelude.{◌≡◌, cond, ◌+◌, ◌-◌, ◌≤◌, length, take, SomeIff};
ghost use Rattle.std.proofs.lemmas.List.Edits.{sets};
ghost use Rattle.path.specs.Join.{joined_says, is_empty, separator, appended};
ghost use Rattle.names.specs.Paths.{composed_of, written_into};
ghost use Rattle.names.specs.private.Parts.{composed};

use crate::kept::KeptParts;
use path::is_alone;
use types::Refusal;

// The last of two parts that is not empty: the joined path ends as it does.
fn end_of<'a>(end: &'a [u8], part: &'a [u8]) -> &'a [u8]
    ensures { result.now ≡ cond (is_empty part.now) end.now part.now }
{
    if part.is_empty() { end } else { part }
}

// What is left of `left` bytes after `part` is appended to a path that ends as `end` does, if they are enough.
fn left_after(left: usize, end: &[u8], part: &[u8]) -> Option<usize>
    ensures { SomeIff result (length (separator end.now part.now) + length part.now ≤ left)
        (left - (length (separator end.now part.now) + length part.now)) }
{
    left.checked_sub(path::separator(end, part).len())?
        .checked_sub(part.len())
}

// What is left of `room` bytes after the composed path, if it fits.
#[tactic(auto, using(crate::proofs::Composed::composed_length))]
fn room_left(parts: KeptParts<'_>, room: usize) -> Option<usize>
    ensures { SomeIff result (length (composed parts.entry) ≤ room) (room - length (composed parts.entry)) }
{
    let end2 = end_of(parts.first, parts.second);
    let end3 = end_of(end2, parts.third);
    let left1 = room.checked_sub(parts.first.len())?;
    let left2 = left_after(left1, parts.first, parts.second)?;
    let left3 = left_after(left2, end2, parts.third)?;
    left_after(left3, end3, parts.last)
}

// Appends `part`, for which there is room, to the path in the first `used` bytes, and gives the new length.
// Stays: `path::append_path` is lent the buffer and the length of the path in it apart; a record of the two would be
// taken apart for each of its calls.
fn grown(buf: &mut [u8], used: usize, part: &[u8]) -> usize
    requires { (used ≤ length buf.old) × (length (appended (take used buf.old) part.now) ≤ length buf.old) }
    ensures value { result ≡ length (appended (take used buf.old) part.now) }
    ensures buf_after { buf.new ≡ sets buf.old 0 (appended (take used buf.old) part.now) }
{
    path::append_path(buf, used, part).unwrap_or(used)
}

// Writes the composed path, for which there is room, and gives its length.
// Stays: whether a separator stands before a part depends on the part and on the path so far, so that each is appended
// by a join of `path`; the buffer is lent, and no format string writes that.
fn put_kept(parts: KeptParts<'_>, buf: &mut [u8]) -> usize
    requires { length (composed parts) ≤ length buf.old }
    ensures value { result ≡ length (composed parts.entry) }
    ensures buf_after { buf.new ≡ sets buf.old 0 (composed parts.entry) }
{
    lists::copy_after(buf, 0, parts.first);
    let used2 = grown(buf, parts.first.len(), parts.second);
    let used3 = grown(buf, used2, parts.third);
    grown(buf, used3, parts.last)
}

// The composed path where its first part is kept.
fn compose_kept(parts: KeptParts<'_>, buf: &mut [u8]) -> Result<usize, Refusal>
    ensures { joined_says result buf.new ≡ written_into (composed parts.entry) buf.old }
{
    room_left(parts, buf.len()).ok_or(Refusal::NoRoom)?;
    Ok(put_kept(parts, buf))
}

// Writes the path of four parts, each appended to those before it, to the start of `buf`, and gives its
// length; an absent part is passed empty.
pub fn compose_path(
    first: &[u8],
    second: &[u8],
    third: &[u8],
    last: &[u8],
    buf: &mut [u8],
) -> Result<usize, Refusal>
    ensures { joined_says result buf.new
        ≡ written_into (composed_of first.now second.now third.now last.now)
        buf.old }
{
    if !is_alone(first) {
        let parts = KeptParts {
            first,
            second,
            third,
            last,
        };
        return compose_kept(parts, buf);
    }
    if !is_alone(second) {
        let parts = KeptParts {
            first: second,
            second: b"",
            third,
            last,
        };
        return compose_kept(parts, buf);
    }
    path::join_path(third, last, buf)
}
