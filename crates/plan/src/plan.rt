// The plan of an addition: its rows, its directories, where its texts go, and the set's record after it. It is decided
// on what the caller lends, before anything is written. Relies on `additions`, dirs.rt, counts.rt and the laws of
// proofs/Plans.antt.
ghost use Rattle.std.specs.Prelude.{◌≡◌, ◌+◌, ◌<◌, ◌^◌, SomeIff, true, if◌then◌else◌, nat_eq, option_copied};
ghost use Rattle.types.specs.Refusals.{outcome};
ghost use Rattle.tables.specs.Model.{store_of};
ghost use Rattle.rules.specs.Bounds.{max_links};
ghost use Rattle.change.specs.Rooms.{holds_in};
ghost use Rattle.additions.specs.Addition.{addition_of};
ghost use Rattle.additions.specs.private.Texts.{directory_at};
ghost use Rattle.plan.specs.Write.{old_name};
ghost use Rattle.plan.specs.private.Steps.{Countable, dir_texts, facts_of, lengths_of};
ghost use Rattle.plan.specs.private.Steps.{dirs_after, pad_new, pad_length, text_spans_for};
ghost use Rattle.plan.specs.private.Steps.{spans_within, plan_from, planned_in, planned_beside};
ghost use Rattle.plan.specs.Plan.{planned_for};

use crate::counts::{Counts, FileFacts, counts_after, is_full, row_flags};
use crate::dirs::{DirPlan, Stored};
use additions::{FileInfo, Given, PathKind, PathParts, Sizes};
use change::Rooms;
use tables::{FileStorage, MADE_BIT, PAD_BIT, Row, Span};
use types::Refusal;

// The flags of a pad that an addition makes.
const MADE_PAD_FLAGS: u64 = PAD_BIT + MADE_BIT;

// Where the new texts of an addition go, in this order, and where the last of them ends. The length of a directory's
// text is in its plan, which has one only where the directory is new.
#[derive(Drop)]
pub(crate) struct TextSpans {
    pub set: Span,
    pub directory: usize,
    pub name: Span,
    pub link: Span,
    pub pad_directory: usize,
    pub pad_name: Span,
    pub end: usize,
}

// A directory row to be written, and its number.
#[derive(Clone, Copy)]
pub struct NewDir {
    pub slot: usize,
    pub text: Span,
}

// What an addition writes: the set's record before and after it, the file's row, the pad's row where a pad follows,
// both directories where they are new, the set's old name, which is removed, the position where the new texts begin,
// and the parts of the path, in which they stand.
#[derive(Clone, Copy)]
pub struct AddPlan {
    pub before: FileStorage,
    pub after: FileStorage,
    pub row: Row,
    pub pad_row: Option<Row>,
    pub dir: Option<NewDir>,
    pub pad_dir: Option<NewDir>,
    pub old: Span,
    pub start: usize,
    pub parts: PathParts,
}

// The lengths of an addition's texts: the set's name if it is new, the file's name, and the link text if it is kept.
#[derive(Drop)]
pub(crate) struct TextLengths {
    pub set_name: usize,
    pub name: usize,
    pub link: usize,
}

// What is decided of an addition before its directories are looked for: its sizes, what its row says, the lengths of
// its texts, and the parts of its path, beside the record of the set that is added to.
#[derive(Drop)]
pub(crate) struct Decided {
    pub fs: FileStorage,
    pub sizes: Sizes,
    pub facts: FileFacts,
    pub lengths: TextLengths,
    pub parts: PathParts,
}

// The directories of an addition: the file's, and the pad's where one follows.
#[derive(Drop)]
pub(crate) struct DirPlans {
    pub file: DirPlan,
    pub pad: Option<DirPlan>,
}

impl DirPlans {
    // How many directories there are with both.
    fn count(&self) -> usize
        ensures { result ≡ dirs_after self.now }
    {
        self.pad.map_or(self.file.count, |d| d.count)
    }

    // The length of the text of the pad's directory, where that is new.
    fn pad_new(&self) -> Option<usize>
        ensures { result ≡ pad_new self.now }
    {
        self.pad?.new
    }
}

// How many digits name a pad, where there is one.
fn pad_length(pad: Option<u64>) -> usize
    ensures { result ≡ pad_length pad }
{
    pad.map_or(0, |size| lists::digit_count(size))
}

// The span of a text of `len` bytes behind another text.
fn next_span(s: Span, len: usize) -> Option<Span>
    ensures { SomeIff result (s.at + s.len < 2 ^ 64) (record { at = s.at + s.len; len = len }) }
{
    Some(Span {
        at: s.at.checked_add(s.len)?,
        len,
    })
}

// Spans for the texts of an addition after the text that stays, where they fit in `room`.
fn text_spans(room: usize, addition: &Decided, dirs: &DirPlans) -> Option<TextSpans>
    ensures { result ≡ spans_within room (text_spans_for addition.now dirs.now) }
{
    let fs = addition.fs;
    let lengths = &addition.lengths;
    let set = Span {
        at: fs.text_len.saturating_sub(old_name(fs).len),
        len: lengths.set_name,
    };
    let directory = next_span(set, dirs.file.new.unwrap_or(0))?;
    let name = next_span(directory, lengths.name)?;
    let link = next_span(name, lengths.link)?;
    let pad_directory = next_span(link, dirs.pad_new().unwrap_or(0))?;
    let pad_name = next_span(pad_directory, pad_length(addition.sizes.pad))?;
    let end = next_span(pad_name, 0)?.at;
    if room < end {
        return None;
    }
    Some(TextSpans {
        set,
        directory: directory.at,
        name,
        link,
        pad_directory: pad_directory.at,
        pad_name,
        end,
    })
}

// The set's old name within the used text, where the set is named again; a span of no bytes where not.
fn old_name(fs: FileStorage) -> Span
    ensures { result ≡ old_name fs }
{
    if fs.num_files == 0 {
        return tables::clipped(fs.text_len, fs.name);
    }
    Span::empty()
}

// Where the set's name lies after an addition.
fn name_after(fs: FileStorage, set: Span) -> Span
    ensures { result ≡ (if nat_eq fs.num_files 0 then set else fs.name) }
{
    if fs.num_files == 0 {
        return set;
    }
    fs.name
}

// The plan, from what was decided.
fn make_plan(addition: Decided, counts: Counts, dirs: DirPlans, spans: TextSpans) -> AddPlan
    ensures { result ≡ plan_from addition counts dirs spans }
{
    let Decided {
        fs,
        sizes,
        facts,
        parts,
        ..
    } = addition;
    AddPlan {
        before: fs,
        after: FileStorage {
            v2: sizes.v2,
            num_files: counts.num_files,
            num_paths: dirs.count(),
            num_symlinks: counts.num_symlinks,
            name: name_after(fs, spans.set),
            text_len: spans.end,
            total_size: sizes.total_size,
            size_on_disk: counts.size_on_disk,
            ..fs
        },
        row: Row {
            offset: fs.total_size,
            size: sizes.size,
            name: spans.name,
            link: spans.link,
            path_index: dirs.file.index,
            flags: row_flags(facts, parts.kind == PathKind::Outside),
            time: facts.time,
        },
        pad_row: sizes.pad.zip(dirs.pad).map(|(size, dir)| Row {
            offset: sizes.file_end,
            size,
            name: spans.pad_name,
            link: Span {
                at: spans.end,
                len: 0,
            },
            path_index: dir.index,
            flags: MADE_PAD_FLAGS,
            time: 0,
        }),
        dir: dirs.file.new.map(|len| NewDir {
            slot: fs.num_paths,
            text: Span {
                at: spans.directory,
                len,
            },
        }),
        pad_dir: dirs.pad_new().map(|len| NewDir {
            slot: dirs.file.count,
            text: Span {
                at: spans.pad_directory,
                len,
            },
        }),
        old: old_name(fs),
        start: spans.set.at,
        parts,
    }
}

// The plan where there is room.
fn plan_numbers(rooms: Rooms, addition: Decided, dirs: DirPlans) -> Result<AddPlan, Refusal>
    requires { Countable addition.fs addition.facts.keeps_link }
    ensures { outcome result ≡ planned_in rooms addition dirs }
{
    let counts = counts_after(addition.fs, addition.sizes, addition.facts);
    if !rooms.fit(counts.num_files, dirs.count()) {
        return Err(Refusal::NoRoom);
    }
    let spans = text_spans(rooms.text, &addition, &dirs).ok_or(Refusal::NoRoom)?;
    Ok(make_plan(addition, counts, dirs, spans))
}

// The plan of an addition to a set that its tables hold: `dir` is the text of its directory, for which the stored
// directories are searched.
fn plan_dirs(
    rooms: Rooms,
    dirs: &[u64],
    text: &[u8],
    addition: Decided,
    dir: &[u8],
) -> Result<AddPlan, Refusal>
    requires rooms_value { holds_in addition.fs rooms ≡ true }
    requires num_symlinks_bound { addition.facts.keeps_link ≡ true → addition.fs.num_symlinks < max_links }
    ensures { outcome result
        ≡ planned_beside rooms (dir_texts dirs.now text.now addition.fs.num_paths) addition
        (directory_at addition.parts.kind dir.now) }
{
    let stored = Stored {
        dirs,
        text,
        count: addition.fs.num_paths,
    };
    let file = stored.plan(addition.parts.kind, dir);
    let pad = stored.plan_pad(addition.sizes.pad, file.new.is_some(), dir);
    plan_numbers(rooms, addition, DirPlans { file, pad })
}

// What an addition brings to a set.
fn facts_of(fs: FileStorage, file: FileInfo, link: &[u8]) -> FileFacts
    ensures { result ≡ facts_of fs file link.now }
{
    FileFacts {
        flags: u64::from(file.flags),
        keeps_link: additions::keeps_link(fs.num_symlinks, link),
        has_root: bool::from(file.rooted),
        time: types::zigzag64(file.mtime),
    }
}

// The lengths of an addition's texts, where `links` link texts are held.
fn lengths_of(links: usize, given: Given) -> TextLengths
    ensures { result
        ≡ lengths_of links
        (option_copied given.entry.name)
        given.entry.path.now given.entry.parts given.entry.link.now }
{
    TextLengths {
        set_name: given.set_name().len(),
        name: given.stored_name().len(),
        link: given.link_text(links).len(),
    }
}

// The plan of an addition, or its refusal. Nothing is written.
// Stays: each table is lent by itself (docs/DECISIONS.md, Forms 10), and the texts stand in the clause one by one, as
// `addition_of` takes them. A `Given` made by the caller would bring parts, of which the clause would have to ask that
// they are the path's.
pub fn plan_add(
    fs: FileStorage,
    rows: &[u64],
    roots: &[u8],
    firsts: &[u16],
    dirs: &[u64],
    text: &[u8],
    file: FileInfo,
    filename: &[u8],
    path: &[u8],
    symlink_path: &[u8],
) -> Result<AddPlan, Refusal>
    ensures { outcome result
        ≡ planned_for
        (store_of fs
        rows.now roots.now firsts.now dirs.now text.now)
        (addition_of file filename.now path.now symlink_path.now) }
{
    let given = Given {
        name: additions::given_name(file.given, filename),
        path,
        link: symlink_path,
        parts: additions::parts_of(fs, text, path),
    };
    let facts = facts_of(fs, file, symlink_path);
    let sizes = additions::decide_sizes(fs, file.size, facts.has_root, given)?;
    let rooms = Rooms::of(rows, roots, dirs, text);
    if is_full(fs, rooms, firsts.len(), sizes) {
        return Err(Refusal::NoRoom);
    }
    let addition = Decided {
        fs,
        sizes,
        facts,
        lengths: lengths_of(fs.num_symlinks, given),
        parts: given.parts,
    };
    plan_dirs(rooms, dirs, text, addition, given.directory())
}
