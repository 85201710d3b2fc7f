// The words of an addition: `add NAME PATH SIZE FLAGS MTIME LINK ROOT`. Relies on `script`, and on input.rt for the
// buffer that the texts stand in.
use crate::input::{Buffer, between};
use additions::FileInfo;
use tables::{Presence, Sha256Hash};

// What the words stand for. A name that is not given has no bytes.
#[derive(Drop)]
pub(crate) struct Addition<'a> {
    pub file: FileInfo,
    pub name: &'a [u8],
    pub path: &'a [u8],
    pub link: &'a [u8],
}

// Reads the words of a line; the texts are decoded into a buffer, one after the other.
// Stays: document 01 asks for an enum of presence with the value beside it, so an absent name ends at 0, and an absent
// root is zeros.
pub(crate) fn read<'a>(line: &[u8], target: &'a mut Buffer) -> Option<Addition<'a>> {
    let given = presence(script::word(line, 1));
    let name_end = match given {
        Presence::Present => script::decode(script::word(line, 1), target, 0)?,
        Presence::Absent => 0,
    };
    let path_end = script::decode(script::word(line, 2), target, name_end)?;
    let size = script::to_i64(script::word(line, 3))?;
    let flags = u8::try_from(script::to_u64(script::word(line, 4))?).ok()?;
    let mtime = script::to_i64(script::word(line, 5))?;
    let link_end = script::decode(script::word(line, 6), target, path_end)?;
    let word = script::word(line, 7);
    let rooted = presence(word);
    let root = match rooted {
        Presence::Present => Sha256Hash {
            bytes: script::to_root(word)?,
        },
        Presence::Absent => Sha256Hash::new(),
    };
    let file = FileInfo {
        given,
        size,
        flags,
        mtime,
        rooted,
        root,
    };
    Some(Addition {
        file,
        name: between(target, 0, name_end),
        path: between(target, name_end, path_end),
        link: between(target, path_end, link_end),
    })
}

// Whether a word says that something is there; `-` says that it is not.
fn presence(word: &[u8]) -> Presence {
    match word {
        [b'-'] => Presence::Absent,
        _ => Presence::Present,
    }
}
