// The parts of a path, as spans in it. Relies on the splits of `path` and on the laws of proofs/Texts.antt.
ghost use Rattle.std.specs.Prelude.{◌≡◌, false, cond, ◌+◌, ◌≤◌, length};
ghost use Rattle.path.specs.Split.{rsplit_branch, rsplit_leaf, lsplit_first, is_complete, has_parent_path};
ghost use Rattle.tables.specs.Span.{text_at};
ghost use Rattle.additions.specs.declared.parts.PathKind.TheVariants.{Inside};
ghost use Rattle.additions.specs.Parts.{whole_span, first_span, set_name_span, directory_span, parts_of};
ghost use Rattle.additions.specs.private.Texts.{place_for};

use tables::{FileStorage, Span};

// Where a file lies: at a single name, at an absolute path, in a directory under the set's name, or in
// one outside it.
#[derive(Clone, Copy, PartialEq, Eq)]
pub enum PathKind {
    Single,
    Absolute,
    Inside,
    Outside,
}

// Where a file lies, and its directory's text, as a span in its path.
#[derive(Drop)]
pub(crate) struct Place {
    pub kind: PathKind,
    pub directory: Span,
}

// The parts of a path, as spans in it.
// Stays: a path without a parent has each of these spans too, so `has_parent` guards no field. Nor does `kind`:
// `Given::directory` reads the directory's text of every kind, which has no bytes where there is no directory. With the
// span in two variants of the kind it would match for it, and the plan's `==` with `Outside` would be a match too.
#[derive(Clone, Copy)]
pub struct PathParts {
    // Its last part.
    pub leaf: Span,
    // The name that it gives its file: the leaf, or all of an absolute path.
    pub name: Span,
    // The name that it gives a set without files; no bytes where the set has files.
    // Stays: of this text the plan takes the length and the writer the bytes, both from `Given::set_name`, and none are
    // as good as no text. An `Option<Span>` would spare `parts_of` its test of the files; but `Given::set_name`, and
    // each clause that names the text, would put a span of no bytes back for `None`.
    pub set_name: Span,
    // The text of its directory; no bytes where it has none.
    pub directory: Span,
    pub kind: PathKind,
    // Whether it has a part above its leaf.
    pub has_parent: bool,
}

// The span of a whole text.
fn whole_span(text: &[u8]) -> Span
    ensures { result ≡ whole_span text.now }
{
    Span {
        at: 0,
        len: text.len(),
    }
}

// Whether a path has a part above its leaf, whose length is known. A path longer than its leaf and one separator has
// one, without a scan.
fn is_below(path: &[u8], leaf: usize) -> bool
    requires { leaf ≡ length (rsplit_leaf path.now) }
    ensures { result ≡ has_parent_path path.now }
{
    leaf < path.len().saturating_sub(1) || path::has_parent_path(path)
}

// The span of a path's first part.
fn first_span(path: &[u8]) -> Span
    ensures { result ≡ first_span path.now }
{
    Span {
        at: usize::from(path::is_complete(path)),
        len: path::lsplit_path(path).0.len(),
    }
}

// The name that a path gives a set, which it names where the set has no files.
fn set_name_span(files: usize, has_parent: bool, path: &[u8]) -> Span
    ensures { result ≡ set_name_span files has_parent path.now }
{
    if 0 < files {
        return Span::empty();
    }
    if has_parent {
        return first_span(path);
    }
    whole_span(path)
}

// The name that a path gives its file.
fn name_span(path: &[u8], leaf: Span) -> Span
    ensures { result ≡ cond (is_complete path.now) (whole_span path.now) leaf }
{
    if path::is_complete(path) {
        return whole_span(path);
    }
    leaf
}

// The directory's text under the set's name, as a span in the path's branch, whose first part has `first` bytes.
fn inside_span(branch: &[u8], first: usize) -> Span
    requires branch_value { is_complete branch.now ≡ false }
    requires first_value { first ≡ length (lsplit_first branch.now) }
    ensures { result ≡ directory_span Inside branch.now }
{
    let rest = &branch[first..];
    let separators = rest.iter().take_while(|c| **c == b'/').count();
    Span {
        at: first + separators,
        len: rest.len() - separators,
    }
}

// Where a file lies, in a set that is called `set_name`.
fn place_of(path: &[u8], branch: &[u8], set_name: &[u8]) -> Place
    requires { branch.now ≡ rsplit_branch path.now }
    ensures { result ≡ place_for set_name.now path.now }
{
    if path::is_complete(path) {
        return Place {
            kind: PathKind::Absolute,
            directory: Span::empty(),
        };
    }
    if branch.is_empty() {
        return Place {
            kind: PathKind::Single,
            directory: Span::empty(),
        };
    }
    let (first, _) = path::lsplit_path(branch);
    if lists::same(first, set_name) {
        return Place {
            kind: PathKind::Inside,
            directory: inside_span(branch, first.len()),
        };
    }
    Place {
        kind: PathKind::Outside,
        directory: whole_span(branch),
    }
}

// The parts of the path of a file that is added to a set, whose texts stand in `text`.
pub fn parts_of(fs: FileStorage, text: &[u8], path: &[u8]) -> PathParts
    ensures { result ≡ parts_of fs.num_files (text_at text.now fs.name) path.now }
{
    let (branch, leaf) = tables::split_leaf(path);
    let has_parent = is_below(path, leaf.len);
    let set_name = set_name_span(fs.num_files, has_parent, path);
    let called = if fs.num_files == 0 {
        tables::text_at(path, set_name)
    } else {
        tables::text_at(text, fs.name)
    };
    let place = place_of(path, branch, called);
    PathParts {
        leaf,
        name: name_span(path, leaf),
        set_name,
        directory: place.directory,
        kind: place.kind,
        has_parent,
    }
}
