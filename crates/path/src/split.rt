// Splits of a path and tests on it. Each split gives two parts of the caller's slice. Relies on the scans below and on
// the laws of proofs/Splits.antt and proofs/Ends.antt.
ghost use Rattle.std.specs.Prelude.{◌≡◌, cond, ◌++◌, ◌+◌, ◌-◌, ◌≤◌, length, take, drop};
ghost use Rattle.lists.specs.Lists.{any};
ghost use Rattle.path.specs.Join.{is_closed};
ghost use Rattle.path.specs.Split.{is_separator, is_either, is_complete, trimmed};
ghost use Rattle.path.specs.Split.{has_parent_path, skipped, position_in};
ghost use Rattle.path.specs.Split.{before_last, after_last, before_first, after_first, rsplit_branch, rsplit_leaf};
ghost use Rattle.path.specs.Split.{lsplit_first, lsplit_rest, lsplit_at_first, lsplit_at_rest};

// Whether a path is absolute.
pub fn is_complete(path: &[u8]) -> bool
    ensures { result ≡ is_complete path.now }
{
    path.first() == Some(&b'/')
}

// Whether a path ends in a separator.
#[tactic(auto, using(crate::proofs::Ends::closed_is))]
pub fn is_closed(path: &[u8]) -> bool
    ensures { result ≡ is_closed path.now }
{
    path.last() == Some(&b'/')
}

// Whether a byte is `/`, or where `EITHER` is true `\`.
fn is_separator<const EITHER: bool>(byte: u8) -> bool
    ensures { result ≡ cond EITHER is_either is_separator byte }
{
    byte == b'/' || (EITHER && byte == b'\\')
}

// A path without the separator at its end, if it has one.
#[tactic(auto, using(crate::proofs::Ends::last_taken, crate::proofs::Ends::last_kept))]
fn trim<const EITHER: bool>(path: &[u8]) -> &[u8]
    ensures { result.now ≡ trimmed (cond EITHER is_either is_separator) path.now }
{
    match path {
        [whole @ .., last] if is_separator::<EITHER>(*last) => whole,
        _ => path,
    }
}

// Where a path ends once a `/` at its end is dropped.
// Stays: the bound is of each result, a place in the path; a type of places would be opened at once by each one's
// caller. So too in the next two that give a place.
#[tactic(auto, using(crate::proofs::Ends::trimmed_front))]
pub fn trimmed_length(path: &[u8]) -> usize
    ensures { (result ≤ length path.now) × (take result path.now ≡ trimmed is_separator path.now) }
{
    trim::<false>(path).len()
}

// Where the leaf begins: after the last separator, or at 0. Two bytes are looked at in a turn.
// Stays: tried, `rposition` takes 10.4 ns for a path of 25 bytes with a name of 14, and this loop 8.0. Each addition
// does so, and is to take no longer than it does (docs/BENCHMARKS.md, the bar).
#[tactic(auto, using(crate::proofs::Splits::leaf_before))]
fn leaf_start(path: &[u8]) -> usize
    ensures { (result ≤ length path.now)
        × (take (result - 1) path.now ≡ before_last path.now)
        × (drop result path.now ≡ after_last path.now) }
{
    let mut i = path.len();
    while 1 < i {
        if path[i - 1] == b'/' {
            return i;
        }
        if path[i - 2] == b'/' {
            return i - 1;
        }
        i -= 2;
    }
    if i == 1 && path[0] == b'/' {
        return 1;
    }
    0
}

// The position of the first separator at or after `from`, or the path's length.
fn first_separator(path: &[u8], from: usize) -> usize
    ensures upper_bound { result ≤ length path.now }
    ensures path_value { take result path.now
        ≡ take from path.now ++ before_first (drop from path.now) }
    ensures path_value_2 { drop (result + 1) path.now ≡ after_first (drop from path.now) }
{
    path.iter()
        .skip(from)
        .position(|c| *c == b'/')
        .map_or(path.len(), |k| from + k)
}

// Whether a path has a `/` or `\`.
fn has_either(path: &[u8]) -> bool
    ensures { result ≡ any is_either path.now }
{
    path.iter().any(|&b| is_separator::<true>(b))
}

// A path without its leading separator, if it has one.
fn skip(path: &[u8]) -> &[u8]
    ensures { result.now ≡ skipped path.now }
{
    path.strip_prefix(b"/").unwrap_or(path)
}

// A position in a path, counted from after its leading separator.
fn position_in(path: &[u8], pos: usize) -> usize
    ensures { result ≡ position_in path.now pos }
{
    pos.saturating_sub(usize::from(is_complete(path)))
}

// What stands before the last separator and what stands after it, one at the end dropped.
pub fn rsplit_path(path: &[u8]) -> (&[u8], &[u8])
    ensures branch { result.0.now ≡ rsplit_branch path.now }
    ensures leaf { result.1.now ≡ rsplit_leaf path.now }
{
    let whole = trim::<false>(path);
    let k = leaf_start(whole);
    (&whole[..k.saturating_sub(1)], &whole[k..])
}

// What stands before the first separator at or after `pos` and what stands after it, a leading one skipped.
pub fn lsplit_path_at(path: &[u8], pos: usize) -> (&[u8], &[u8])
    ensures first { result.0.now ≡ lsplit_at_first path.now pos }
    ensures rest { result.1.now ≡ lsplit_at_rest path.now pos }
{
    let whole = skip(path);
    let k = first_separator(whole, position_in(path, pos));
    (&whole[..k], whole.get(k + 1..).unwrap_or(b""))
}

// The first part of a path, a leading separator skipped, and what stands after it.
pub fn lsplit_path(path: &[u8]) -> (&[u8], &[u8])
    ensures first { result.0.now ≡ lsplit_first path.now }
    ensures rest { result.1.now ≡ lsplit_rest path.now }
{
    lsplit_path_at(path, 0)
}

// Whether a path has a part above its leaf; `\` counts as a separator here.
pub fn has_parent_path(path: &[u8]) -> bool
    ensures { result ≡ has_parent_path path.now }
{
    has_either(trim::<true>(path))
}

// The leaf of a path, one separator at the end dropped.
// Stays: document 01 names both; it is one call of the other (docs/DECISIONS.md, Forms 7).
pub fn filename(path: &[u8]) -> &[u8]
    ensures { result.now ≡ rsplit_leaf path.now }
{
    rsplit_path(path).1
}
