// The file at an offset, by halving over the rows' offsets: over all rows, or first over those of a window, of which
// the first four are looked at one by one. Each search is lent the rows in use and no others, so that their count is
// that of the slice. It relies on `tables` for the offsets and on the laws of proofs/Halving.antt, proofs/Levels.antt,
// proofs/Near.antt, proofs/Front.antt and proofs/Starting.antt.
ghost use Rattle.std.specs.Prelude.{◌≡◌, ◌+◌, ◌-◌, ◌/◌, ◌%◌, ◌^◌, ◌<◌, ◌≤◌};
ghost use Rattle.std.specs.Prelude.{length, if◌then◌else◌, cond, nat_le, slice_index, IfSome, unwrap_or, false};
ghost use Rattle.layout.specs.Search.{partition_point, file_found, first_with, found_far, has_byte, found_within};
ghost use Rattle.layout.specs.Steps.{reach};
ghost use Rattle.layout.specs.private.Level.{Level};

use crate::window::Window;
use tables::{FileStorage, SIZE_RANGE};

// `step` words on, where the offset there is at or before the target.
// Stays: the offset is taken from its word, at a place that counts words: `tables::offset_at` takes a row's number,
// which would be made by a division, and tests for the row again, both in each step of the search.
fn past(rows: &[u64], target: u64, at: usize, step: usize) -> usize
    requires { at + step < length rows.now }
    ensures { result ≡ (if nat_le (slice_index rows.now (at + step) % 2 ^ 48) target then at + step else at) }
{
    let next = at + step;
    if rows[next] % SIZE_RANGE <= target {
        return next;
    }
    at
}

// How many rows j steps tell apart.
fn reach_of(j: usize) -> usize
    requires { j < 61 }
    ensures { result ≡ reach j }
{
    let p = 1 << j;
    p - p / 128
}

// Step j of the search, which stands at word `at`. Where j steps do not tell n rows apart but one more
// does, the step is the first, and where j steps do, there is none.
#[tactic(auto, using(crate::proofs::Levels::turning))]
fn turn(rows: &[u64], target: u64, j: usize, at: usize) -> usize
    requires { (j < 60) × Level rows.now (length rows.now / 8) target (j + 1) at }
    ensures { Level rows.now (length rows.now / 8) target j result }
{
    let n = rows.len() / 8;
    let more = reach_of(j + 1);
    let most = reach_of(j);
    if more <= n {
        return past(rows, target, at, (more - most) * 8);
    }
    if most < n {
        return past(rows, target, 0, (n - most) * 8);
    }
    at
}

// The steps of the search from `TOP` down to `LOW`: with both constant the compiler writes the steps out and makes
// each without a branch.
// Stays: it is no `partition_point` of std, which says what it finds only where the rows are in order; the contract of
// `find` says it of rows in any order. The steps' number and lengths depend on the count of rows alone, and the
// lengths are a little short of powers of two: rows that are powers of two apart would share few places of a
// processor's cache (docs/DECISIONS.md, Layout answers 4).
#[tactic(auto, using(crate::proofs::Levels::skipped, crate::proofs::Halving::reach_mono))]
fn turns<const TOP: usize, const LOW: usize>(rows: &[u64], target: u64, at: usize) -> usize
    requires { (LOW ≤ TOP) × (TOP ≤ 60) × Level rows.now (length rows.now / 8) target TOP at }
    ensures { Level rows.now (length rows.now / 8) target LOW result }
{
    if rows.len() / 8 <= reach_of(LOW) {
        return at;
    }
    let mut e = at;
    for j in (LOW..TOP).rev() {
        e = turn(rows, target, j, e);
    }
    e
}

// The file found at the target.
#[tactic(auto, using(crate::proofs::Levels::all_rows, crate::proofs::Levels::found))]
pub(crate) fn find(rows: &[u64], target: u64) -> usize
    ensures { result ≡ file_found rows.now (length rows.now / 8) target }
{
    let far = turns::<60, 16>(rows, target, 0);
    let high = turns::<16, 10>(rows, target, far);
    let low = turns::<10, 4>(rows, target, high);
    turns::<4, 0>(rows, target, low) / 8
}

// The file found at the target, without a call where there are few files: the compiler does not take
// all steps into a question, but it takes these.
#[tactic(auto, using(crate::proofs::Levels::all_rows, crate::proofs::Levels::found))]
pub(crate) fn find_near(rows: &[u64], target: u64) -> usize
    ensures { result ≡ file_found rows.now (length rows.now / 8) target }
{
    if rows.len() / 8 <= 16 {
        return turns::<4, 0>(rows, target, 0) / 8;
    }
    find(rows, target)
}

// Whether file k has the byte at the target: the difference begins anew below 0, and is then past every size.
// Stays: tried, by `tables::offset_at` and `size_at`, which test for the row again, `file_index_at_offset` with a table
// of first files takes 22.3 and 63.9 ns in sets of 1,000 and 65,000 files, and so 18.6 and 59.0 (docs/BENCHMARKS.md,
// the bar).
fn has_byte(rows: &[u64], k: usize, target: u64) -> bool
    requires { k < length rows.now / 8 }
    ensures { result ≡ has_byte rows.now k target }
{
    let at = k * 8;
    let offset = rows[at] % SIZE_RANGE;
    let size = rows[at + 1] % SIZE_RANGE;
    target.wrapping_sub(offset) < size
}

// The first file from one on and before another that has the byte at the target.
// Stays: tried, each of the three behind a window's first looked at without a branch: with a table of first files and
// on 10 files `file_index_at_offset` takes 10.6 ns, and so 11.7, but `map_block` 0.64 of the Rust's time, and so 0.62.
fn first_with(rows: &[u64], from: usize, to: usize, target: u64) -> Option<usize>
    requires { (from ≤ to) × (to ≤ length rows.now / 8) }
    ensures bound { IfSome result (λ k. k < to) }
    ensures value { unwrap_or result to ≡ first_with rows.now (to - from) from target }
{
    (from..to).find(|k| has_byte(rows, *k, target))
}

// The file found at the target by halving over a window's rows, if it has the byte there; else the one found among all.
// The first search sees nothing before the rows that it is lent.
// Stays: rows and target go side by side, here, above and below. Tried, a record of the two with these functions as
// methods: `file_index_at_offset` with a table of first files takes 19.3 ns in a set of 1,000 files, and so 15.1; on 10
// files it is behind the Rust's as it is (docs/BENCHMARKS.md). A record with the window would be made in `file_of`,
// `find_near_within` and `partition_point`, each for its call of `find_within`, which passes it on to `find_behind`
// alone.
#[tactic(auto, using(crate::proofs::Front::found_among, crate::proofs::Halving::found_below))]
fn find_far(rows: &[u64], window: Window, target: u64) -> usize
    requires { (window.low < window.high) × (window.high ≤ length rows.now / 8) }
    ensures { result ≡ cond
        (has_byte rows.now (found_far rows.now window target) target)
        (found_far rows.now window target)
        (file_found rows.now (length rows.now / 8) target) }
{
    let from = window.low * 8;
    let k = window.low + find(&rows[from..window.high * 8], target);
    if has_byte(rows, k, target) {
        return k;
    }
    find(rows, target)
}

// The file found at the target, where a window's first file does not have the byte there. It is a call of its own: most
// bytes are in the first file, and what is left to do for the others would make every question larger.
// Stays: it promises what `find_within` does, where the first file is looked at already.
#[inline(never)]
#[tactic(auto, using(crate::proofs::Starting::near_files))]
fn find_behind(rows: &[u64], window: Window, target: u64) -> usize
    requires { (window.low < window.high)
        × (window.high ≤ length rows.now / 8)
        × (has_byte rows.now window.low target ≡ false) }
    ensures { result ≡ found_within rows.now (length rows.now / 8) window target }
{
    let end = (window.low + 4).min(window.high);
    if let Some(k) = first_with(rows, window.low + 1, end, target) {
        return k;
    }
    find_far(rows, window, target)
}

// The file found at the target, where the search begins with a window.
#[tactic(auto, using(crate::proofs::Starting::near_files))]
fn find_within(rows: &[u64], window: Window, target: u64) -> usize
    ensures value { result ≡ found_within rows.now (length rows.now / 8) window target }
    ensures among { result ≤ length rows.now / 8 }
{
    if window.high <= window.low || rows.len() / 8 < window.high {
        return find(rows, target);
    }
    if has_byte(rows, window.low, target) {
        return window.low;
    }
    find_behind(rows, window, target)
}

// The file of a set found at the target: the search is lent the rows of the set's files.
#[tactic(auto, using(crate::proofs::Front::within_front, crate::proofs::Starting::within_in))]
pub(crate) fn file_of(fs: FileStorage, rows: &[u64], window: Window, target: u64) -> usize
    requires { fs.num_files ≤ length rows.now / 8 }
    ensures value { result ≡ found_within rows.now fs.num_files window target }
    ensures among { result ≤ fs.num_files }
{
    find_within(&rows[..fs.num_files * 8], window, target)
}

// The file found at the target, without a call where there is no window and there are few files.
#[tactic(auto, using(crate::proofs::Halving::found_in, crate::proofs::Starting::within_in))]
pub(crate) fn find_near_within(rows: &[u64], window: Window, target: u64) -> usize
    ensures value { result ≡ found_within rows.now (length rows.now / 8) window target }
    ensures among { result ≤ length rows.now / 8 }
{
    if window.low < window.high {
        return find_within(rows, window, target);
    }
    find_near(rows, target)
}

// How many of the rows begin at or before the target; the search begins with a window.
#[tactic(auto, using(crate::proofs::Starting::within_below))]
pub(crate) fn partition_point(rows: &[u64], window: Window, target: u64) -> usize
    ensures { result ≡ partition_point rows.now (length rows.now / 8) window target }
{
    if rows.len() / 8 == 0 {
        return 0;
    }
    let k = find_within(rows, window, target);
    if tables::offset_at(rows, k) <= target {
        return k + 1;
    }
    0
}
