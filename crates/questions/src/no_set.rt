// Questions on no set: on paths, byte strings and the width of a tree. Relies on `path`, `crc32c` and `merkle`, on
// `lists`, `script` and `replies`.
use crate::words::{BUFFER, string, two_strings};
use crate::{ROOM, compose};
use replies::ByteString;
use std::io;
use std::io::Stdout;

// Answers a question on no set; a line that is none is no call.
pub fn on_no_set(out: Stdout, line: &[u8]) -> io::Result<()> {
    answer(out, line).unwrap_or_else(|| replies::bad_call(out))
}

// Answers a line that has one of this module's forms.
fn answer(out: Stdout, line: &[u8]) -> Option<io::Result<()>> {
    if script::has_form(line, b"lsplit_at :P N") {
        lsplit_at(out, line)
    } else if script::has_form(line, b"append :A :B") {
        append(out, line)
    } else if script::has_form(line, b"combine :A :B") {
        combine(out, line)
    } else if script::has_form(line, b"width N") {
        width(out, line)
    } else {
        on_string(out, line)
    }
}

// Answers a question on one string.
fn on_string(out: Stdout, line: &[u8]) -> Option<io::Result<()>> {
    let mut buffer = [0u8; BUFFER];
    let s = string(line, 1, &mut buffer)?;
    let written = if script::has_form(line, b"rsplit :P") {
        halves(out, path::rsplit_path(s))
    } else if script::has_form(line, b"lsplit :P") {
        halves(out, path::lsplit_path(s))
    } else if script::has_form(line, b"has_parent :P") {
        replies::value(out, path::has_parent_path(s))
    } else if script::has_form(line, b"is_complete :P") {
        replies::value(out, path::is_complete(s))
    } else if script::has_form(line, b"filename :P") {
        replies::value(out, ByteString(path::filename(s)))
    } else if script::has_form(line, b"crc :B") {
        replies::value(out, crc32c::crc32c(s))
    } else {
        return None;
    };
    Some(written)
}

// Answers with the two parts of a path.
fn halves(out: Stdout, (a, b): (&[u8], &[u8])) -> io::Result<()> {
    replies::value(out, (ByteString(a), ByteString(b)))
}

// `lsplit_at :P N`.
fn lsplit_at(out: Stdout, line: &[u8]) -> Option<io::Result<()>> {
    let mut buffer = [0u8; BUFFER];
    let s = string(line, 1, &mut buffer)?;
    let at = script::to_u64(script::word(line, 2))? as usize;
    Some(halves(out, path::lsplit_path_at(s, at)))
}

// `append :A :B`: the branch stands at the start of the buffer.
fn append(out: Stdout, line: &[u8]) -> Option<io::Result<()>> {
    let mut buffer = [0u8; BUFFER];
    let (branch, leaf) = two_strings(line, &mut buffer)?;
    Some(compose(out, ROOM, |target| {
        lists::copy_in(target, branch);
        path::append_path(target, branch.len(), leaf)
    }))
}

// `combine :A :B`.
fn combine(out: Stdout, line: &[u8]) -> Option<io::Result<()>> {
    let mut buffer = [0u8; BUFFER];
    let (a, b) = two_strings(line, &mut buffer)?;
    Some(compose(out, ROOM, |target| path::combine_path(a, b, target)))
}

// `width N`.
fn width(out: Stdout, line: &[u8]) -> Option<io::Result<()>> {
    let n = script::to_u64(script::word(line, 1))?;
    Some(replies::answer(out, merkle::merkle_num_leafs(n as usize)))
}
