// Whether a lent list of names is whole, and whether one of its numbers is below 0. Relies on the law of `lists` for
// sums taken off (proofs/Takings.antt).
ghost use Rattle.std.specs.Prelude.{◌≡◌, leb};
ghost use Rattle.lists.specs.Lists.{any, sum};
ghost use Rattle.rules.specs.Bounds.{is_negative};
ghost use Rattle.imports.specs.Imports.{list_held};

// A list of names as it is lent: its numbers, the lengths of the names, and the names one after the other.
// Stays: a caller lends numbers and lengths as two slices (docs/DECISIONS.md), and pairs of them would need a copy of
// the list.
#[derive(Clone, Copy)]
pub(crate) struct NameList<'a> {
    pub numbers: &'a [i32],
    pub lengths: &'a [u64],
    pub names: &'a [u8],
}

// Whether the lengths sum to at most `room`.
// Stays: `room` is how many bytes of names there are, and no count of the lengths.
fn do_fit(lengths: &[u64], room: usize) -> bool
    ensures { result ≡ leb (sum lengths.now) room }
{
    lengths
        .iter()
        .copied()
        .try_fold(room as u64, u64::checked_sub)
        .is_some()
}

// Whether the list is whole: each number has a length, and the names have the bytes that these lengths say.
pub(crate) fn is_list_held(list: NameList<'_>) -> bool
    ensures { result
        ≡ list_held list.entry.numbers.now list.entry.lengths.now list.entry.names.now }
{
    let count = list.numbers.len();
    count <= list.lengths.len() && do_fit(&list.lengths[..count], list.names.len())
}

// Whether one of the numbers is below 0.
pub(crate) fn has_negative(numbers: &[i32]) -> bool
    ensures { result ≡ any is_negative numbers.now }
{
    numbers.iter().any(|n| *n < 0)
}
