// The room that a cleaning needs, taken off the text area's length text by text, since a sum could be too large. Relies
// on `links` for the flagged links and their verdicts, and on the laws of proofs/Links.antt and proofs/Rooms.antt.
ghost use Rattle.std.specs.Prelude.{◌≡◌, ◌-◌, ltb, length};
ghost use Rattle.tables.specs.Span.{clip};
ghost use Rattle.tables.specs.Lending.{store_in};
ghost use Rattle.cleaning.specs.Cleaning.{if_changed};
ghost use Rattle.cleaning.specs.private.Writing.{joined_bytes, new_length, needed_by};
ghost use Rattle.cleaning.specs.private.Judged.{verdicts_on, kept_in, added_in};

use links::{LinkVerdict, Links, verdict_in};
use tables::{Lent, LentSet, Row, Span};

// A set whose links are judged, with a mark for each of them; a link past the last mark keeps its text.
#[derive(Clone, Copy)]
pub(crate) struct JudgedSet<'a, 'm> {
    pub set: LentSet<'a>,
    pub marks: &'m [u8],
}

// What is left of `left` bytes after a link's old text is removed, where its verdict changes it.
fn left_after(used: usize, link: Span, verdict: LinkVerdict, left: usize) -> usize
    ensures { result ≡ left - if_changed verdict (clip used link).len }
{
    match verdict {
        LinkVerdict::Keep => left,
        LinkVerdict::OwnPath | LinkVerdict::FromDirectory => {
            left.saturating_sub(tables::clipped(used, link).len)
        }
    }
}

// What is left of the text held after the old texts that change are removed.
fn kept_after(judged: JudgedSet<'_, '_>) -> usize
    ensures { result ≡ kept_in judged.entry }
{
    let used = judged.set.fs.text_len;
    Links::all(judged.set).fold(used, |left, (k, i)| {
        let row = tables::row_at(judged.set.lent.rows, i);
        left_after(used, row.link, verdict_in(judged.marks, k), left)
    })
}

// The length of a leaf joined to a row's directory.
fn joined_length(lent: Lent<'_>, row: Row, leaf: Span) -> usize
    ensures { result ≡ joined_bytes lent.entry.dirs.now lent.entry.text.now row leaf }
{
    let branch = lent.directory_of(row);
    path::joined_length(branch, tables::text_at(lent.text, leaf))
}

// The length of a file's new text, by its verdict.
fn new_length(lent: Lent<'_>, row: Row, verdict: LinkVerdict) -> usize
    ensures { result ≡ new_length lent.entry.dirs.now lent.entry.text.now verdict row }
{
    // Stays: it matches an enum, and each of its three cases is one line; a closure for each verdict would be no
    // plainer.
    match verdict {
        LinkVerdict::Keep => 0,
        LinkVerdict::OwnPath => joined_length(lent, row, row.name),
        LinkVerdict::FromDirectory => joined_length(lent, row, tables::link_span(row)),
    }
}

// Whether the new texts have more than `room` bytes.
fn lacks_bytes(judged: JudgedSet<'_, '_>, room: usize) -> bool
    ensures { result ≡ ltb room (added_in judged.entry) }
{
    let lent = judged.set.lent;
    Links::all(judged.set)
        .map(|(k, i)| {
            let row = tables::row_at(lent.rows, i);
            new_length(lent, row, verdict_in(judged.marks, k))
        })
        .try_fold(room, usize::checked_sub)
        .is_none()
}

// Whether the text area is shorter than all texts held after the cleaning.
pub(crate) fn lacks_room(judged: JudgedSet<'_, '_>) -> bool
    ensures { result ≡ ltb (length judged.entry.set.lent.text.now)
        (needed_by (verdicts_on judged.entry) (store_in judged.entry.set)) }
{
    let room = judged.set.lent.text.len();
    let kept = kept_after(judged);
    room < kept || lacks_bytes(judged, room - kept)
}
