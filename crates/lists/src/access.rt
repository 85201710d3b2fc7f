// Reading, writing, parts, comparing, copying and moving, without a demand on the caller.
// It relies on the laws of proofs/Parts.antt, Runs.antt and Equality.antt.
ghost use Rattle.std.specs.Prelude.{◌≡◌, ◌≤◌, length, get_or, set, take, drop};
ghost use Rattle.std.proofs.lemmas.List.Edits.{sets};
ghost use Rattle.lists.specs.Lists.{part_of, unblanked, equal};

// The item at position i, or `default` past the end.
pub fn item_or<T: Copy>(items: &[T], i: usize, default: T) -> T
    ensures { result ≡ get_or items.now i default }
{
    items.get(i).copied().unwrap_or(default)
}

// Stores an item at position i, or nothing past the end.
// Stays: std's `get_mut` on a slice says which item it lends, and nothing of the slice once the item is written: with
// it only the slice's length is known after the write.
pub fn put<T: Copy>(items: &mut [T], i: usize, value: T)
    ensures { items.new ≡ set items.old i value }
{
    if i < items.len() {
        items[i] = value;
    }
}

// The n items from position `at` on, or as many of them as there are.
// Stays: every place and count is allowed, also where the slice has no such items to be lent.
pub fn part<T>(items: &[T], at: usize, n: usize) -> &[T]
    ensures { result.now ≡ part_of items.now at n }
{
    let from = at.min(items.len());
    let to = from + n.min(items.len() - from);
    &items[from..to]
}

// The bytes without the blanks at their start.
// Stays: std's `trim_ascii_start` takes more than blanks, and its `trim_start_matches` is of a `str`. By `position` and
// a cut, blanks would be counted and the count be cut off; the loop takes one after the other, as the definition does.
pub fn unblanked(bytes: &[u8]) -> &[u8]
    ensures value { result.now ≡ unblanked bytes.now }
    ensures within { length result.now ≤ length bytes.now }
{
    let mut rest = bytes;
    while let [b' ', more @ ..] = rest {
        rest = more;
    }
    rest
}

// Whether two slices hold the same bytes. It goes from the back: texts of one set often begin alike.
// Stays: tried, `a == b` takes 10.7 ns for two paths of 25 bytes whose names differ at the end, and this loop 8.0. With
// `a.iter().rev().zip(b.iter().rev()).all(..)` a search over 50 directories takes 43 ns by rustc, and so 35; an
// addition to a v2 set with 50 directories takes as long as the Rust's already.
#[tactic(auto, using(crate::proofs::Equality::comparing))]
pub fn same(a: &[u8], b: &[u8]) -> bool
    ensures { result ≡ equal a.now b.now }
{
    let n = a.len();
    if n != b.len() {
        return false;
    }
    for i in 0..n {
        if a[n - 1 - i] != b[n - 1 - i] {
            return false;
        }
    }
    true
}

// Copies `source` to the start of `target`, as much of it as there is room for.
// Stays: tried, std's `copy_from_slice`; the archive for C would need memmove from outside, which it did not before. The
// loop becomes a memcpy.
#[tactic(auto, using(crate::proofs::Runs::copying))]
pub fn copy_in<T: Copy>(target: &mut [T], source: &[T])
    ensures { target.new ≡ sets target.old 0 source.now }
{
    let n = target.len().min(source.len());
    for i in 0..n {
        target[i] = source[i];
    }
}

// Copies `source` to `target` after its first `used` items, as much of it as there is room for: the rest of the slice
// is lent to the copy.
// Stays: `used` is any number, also past the slice's end, where there is no rest to be lent.
#[tactic(auto, using(crate::proofs::Runs::behind))]
pub fn copy_after<T: Copy>(target: &mut [T], used: usize, source: &[T])
    ensures { target.new ≡ sets target.old used source.now }
{
    if let Some((_front, rest)) = target.split_at_mut_checked(used) {
        copy_in(rest, source);
    }
}

// Moves the items from `from` up to `used` to place `to`, up or down; what falls past the end is dropped.
// Stays: it is std's `copy_within`, which asks for items that stand there and for room, over what there is of both.
#[tactic(auto, using(crate::proofs::Runs::moving))]
pub fn move_part<T: Copy>(items: &mut [T], used: usize, from: usize, to: usize)
    ensures { items.new ≡ sets items.old to (drop from (take used items.old)) }
{
    let end = used.min(items.len());
    if from < end && to < items.len() {
        let n = (end - from).min(items.len() - to);
        items.copy_within(from..from + n, to);
    }
}
