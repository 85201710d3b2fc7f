// A file to add, and the texts that are kept of it: those of its path, its name and its link text. Relies on the
// presence and the spans of `tables`, and on the parts of a path.
ghost use Rattle.std.specs.Prelude.{◌≡◌, option_copied};
ghost use Rattle.tables.specs.Span.{text_at};
ghost use Rattle.additions.specs.Addition.{optional_of, link_is_kept};
ghost use Rattle.additions.specs.private.Texts.{name_from, link_text_of};

use crate::parts::PathParts;
use tables::{Presence, Sha256Hash};

// The most link texts that a set holds.
const MAX_LINKS: usize = 32766;

// A file to add, besides its texts: whether a name is given, its size, flags and modified time, and its root, if it is
// there.
// Stays: document 01 puts an enum of presence in the place of `Option`, with the value beside it: the root's bytes
// here, and the given name among the texts. `given_name` makes an `Option` of the name in `plan` and in `storage`.
#[derive(Clone, Copy)]
pub struct FileInfo {
    pub given: Presence,
    pub size: i64,
    pub flags: u8,
    pub mtime: i64,
    pub rooted: Presence,
    pub root: Sha256Hash,
}

// The texts that an addition brings, its name where one is given, and the parts of its path.
#[derive(Clone, Copy)]
pub struct Given<'a> {
    pub name: Option<&'a [u8]>,
    pub path: &'a [u8],
    pub link: &'a [u8],
    pub parts: PathParts,
}

impl<'a> Given<'a> {
    // The name that the path gives the set; no bytes where it gives none.
    pub fn set_name(self) -> &'a [u8]
        ensures { result.now ≡ text_at self.entry.path.now self.entry.parts.set_name }
    {
        tables::text_at(self.path, self.parts.set_name)
    }

    // The text of the file's directory.
    pub fn directory(self) -> &'a [u8]
        ensures { result.now ≡ text_at self.entry.path.now self.entry.parts.directory }
    {
        tables::text_at(self.path, self.parts.directory)
    }

    // The name that is stored: the given one where it has bytes, else that of the path.
    pub fn stored_name(self) -> &'a [u8]
        ensures { result.now
            ≡ name_from (option_copied self.entry.name) (text_at self.entry.path.now self.entry.parts.name) }
    {
        let own = tables::text_at(self.path, self.parts.name);
        match self.name {
            Some(name) if !name.is_empty() => name,
            _ => own,
        }
    }

    // The link text where a set of `links` link texts keeps it, no bytes where not.
    pub fn link_text(self, links: usize) -> &'a [u8]
        ensures { result.now ≡ link_text_of links self.entry.link.now }
    {
        if keeps_link(links, self.link) {
            return self.link;
        }
        &self.link[..0]
    }
}

// The name that is given, if one is.
pub fn given_name(given: Presence, filename: &[u8]) -> Option<&[u8]>
    ensures { option_copied result ≡ optional_of given filename.now }
{
    bool::from(given).then_some(filename)
}

// Whether an addition keeps its link text: it has one, and a set of `links` link texts may hold one more.
pub fn keeps_link(links: usize, link: &[u8]) -> bool
    ensures { result ≡ link_is_kept links link.now }
{
    !link.is_empty() && links < MAX_LINKS
}
