// The tests of an addition on numbers and on the parts of its path, in document 01's order. Relies on the laws of
// proofs/Rules.antt.
ghost use Rattle.std.specs.Prelude.{◌≡◌, ◌≤◌, false, IfOk, option_copied};
ghost use Rattle.types.specs.Refusals.{outcome};
ghost use Rattle.rules.specs.Bounds.{is_negative, clamped_of, bad_length, limit};
ghost use Rattle.rules.specs.Rules.{first_of, outcome_of};
ghost use Rattle.rules.specs.Results.{check_number};
ghost use Rattle.additions.specs.Addition.{decides, is_left_open};
ghost use Rattle.additions.specs.Addition.{version_by, pad_after, size_rules, version_rules};
ghost use Rattle.additions.specs.private.Checks.{limited_length, bad_beside};
ghost use Rattle.additions.specs.private.Checks.{names_of, pad_if, sizes_for, number_rules};

use crate::info::Given;
use crate::parts::{PathKind, PathParts};
use rules::MAX_FILE_OFFSET;
use tables::FileStorage;
use types::Refusal;

// A name has fewer bytes.
const NAME_LIMIT: usize = 4096;

// The size of an addition, whether the set is v2 after it, and the size of the pad that follows it, where one does: in
// a v2 set whose total is no multiple of the piece length; where the file ends, and the set's total after it.
// Stays: `v2` is a fact of the set; `pad` may be missing in a v2 set too, and says so itself.
#[derive(Clone, Copy)]
pub struct Sizes {
    pub size: u64,
    pub v2: bool,
    pub pad: Option<u64>,
    pub file_end: u64,
    pub total_size: u64,
}

// The size as an unsigned number, or refusal 1, 2, 3 or 4.
fn check_size(piece_length: u64, total: u64, size: i64) -> Result<u64, Refusal>
    ensures refusal { check_number result
        ≡ first_of (size_rules piece_length total (is_negative size) (clamped_of size)) }
    ensures number { IfOk result (λ n. n ≡ clamped_of size) }
{
    if rules::is_bad_length(piece_length) {
        return Err(Refusal::InvalidPieceLength);
    }
    let size = u64::try_from(size).map_err(|_| Refusal::NegativeSize)?;
    if MAX_FILE_OFFSET < size {
        return Err(Refusal::FileTooLarge);
    }
    if MAX_FILE_OFFSET - size < total {
        return Err(Refusal::TorrentInvalidLength);
    }
    Ok(size)
}

// The length of the name that refusal 5 looks at; `leaf` is that of the path's last part.
fn limited_length(given: Option<&[u8]>, leaf: usize) -> usize
    ensures { result ≡ limited_length (option_copied given.entry) leaf }
{
    given.map_or(leaf, |name| name.len())
}

// Refusal 6: a given name that begins with a separator, or has bytes beside an absolute path.
fn is_bad_name(given: Option<&[u8]>, absolute: bool) -> bool
    ensures { result ≡ bad_beside (option_copied given.entry) absolute }
{
    given.is_some_and(|name| path::is_complete(name) || (!name.is_empty() && absolute))
}

// Refusals 5, 6, 7.
fn check_names(files: usize, given: Option<&[u8]>, parts: PathParts) -> Result<(), Refusal>
    ensures { check_number result ≡ first_of (names_of files (option_copied given.entry) parts) }
{
    if NAME_LIMIT <= limited_length(given, parts.leaf.len) {
        return Err(Refusal::FilenameTooLong);
    }
    if is_bad_name(given, parts.kind == PathKind::Absolute) {
        return Err(Refusal::InvalidName);
    }
    if !parts.has_parent && 0 < files {
        return Err(Refusal::MissingParentPath);
    }
    Ok(())
}

// Whether a file fixes v1 or v2, or must agree: it has bytes and no link text.
fn is_plain(size: u64, link: &[u8]) -> bool
    ensures { result ≡ decides size link.now }
{
    0 < size && link.is_empty()
}

// Whether a set may still become v1 or v2.
fn is_open(total: u64, links: usize, files: usize) -> bool
    ensures { result ≡ is_left_open total links files }
{
    total == 0 || links == files
}

// What decides between v1 and v2: what the set is before an addition, whether the file fixes it or must agree, whether
// the set may still become either, and whether the file has a root.
// Stays: two are facts of the set, two of the file; none guards another.
#[derive(Clone, Copy)]
struct Version {
    v2: bool,
    plain: bool,
    free: bool,
    root: bool,
}

impl Version {
    // Refusals 8, 9.
    fn check(self) -> Result<(), Refusal>
        ensures { check_number result ≡ first_of (version_rules self.v2 self.plain self.free self.root) }
    {
        if !self.plain || self.free || self.v2 == self.root {
            return Ok(());
        }
        if self.v2 {
            return Err(Refusal::TorrentMissingPiecesRoot);
        }
        Err(Refusal::TorrentInconsistentFiles)
    }

    // Whether the set is v2 after the addition.
    fn after(self) -> bool
        ensures { result ≡ version_by self.v2 self.plain self.free self.root }
    {
        if self.plain && self.free {
            self.root
        } else {
            self.v2
        }
    }
}

// The pad's size in a v2 set: what is missing to the next multiple of the piece length. A v1 set has no pads.
fn pad_after(v2: bool, piece_length: u64, total: u64) -> Option<u64>
    requires piece_length_value { bad_length piece_length ≡ false }
    requires total_bound { total ≤ limit }
    ensures { result ≡ pad_if (pad_after v2 piece_length total) }
{
    let pad = if v2 {
        total.next_multiple_of(piece_length) - total
    } else {
        0
    };
    (0 < pad).then_some(pad)
}

// The sizes of an addition, or the first refusal but that of room; `rooted` says whether it has a root.
pub fn decide_sizes(
    fs: FileStorage,
    size: i64,
    rooted: bool,
    given: Given<'_>,
) -> Result<Sizes, Refusal>
    ensures { outcome result
        ≡ outcome_of (first_of
        (number_rules fs (option_copied given.entry.name) given.entry.parts size given.entry.link.now rooted))
        (sizes_for fs size given.entry.link.now rooted) }
{
    let size = check_size(fs.piece_length, fs.total_size, size)?;
    check_names(fs.num_files, given.name, given.parts)?;
    let version = Version {
        v2: fs.v2,
        plain: is_plain(size, given.link),
        free: is_open(fs.total_size, fs.num_symlinks, fs.num_files),
        root: rooted,
    };
    version.check()?;
    let v2 = version.after();
    let file_end = fs.total_size + size;
    let pad = pad_after(v2, fs.piece_length, file_end);
    let total_size = file_end + pad.unwrap_or(0);
    if MAX_FILE_OFFSET < total_size {
        return Err(Refusal::TorrentInvalidLength);
    }
    Ok(Sizes {
        size,
        v2,
        pad,
        file_end,
        total_size,
    })
}
