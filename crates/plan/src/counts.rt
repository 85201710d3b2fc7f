// What a set counts after an addition, and the flags of the file's row. The bounds that keep every sum small are in
// `Countable`.
ghost use Rattle.std.specs.Prelude.{◌≡◌, false, not, ◌||◌};
ghost use Rattle.rules.specs.Bounds.{bad_length};
ghost use Rattle.change.specs.Rooms.{holds_in};
ghost use Rattle.plan.specs.private.Steps.{Countable, bit_of, row_flags, counts_of};
ghost use Rattle.plan.specs.private.Steps.{places_lack};

use additions::Sizes;
use change::Rooms;
use tables::{FileStorage, LINK_HELD_BIT, OUTSIDE_BIT, ROOT_BIT, SYMLINK_BIT};

// What a set counts after an addition.
#[derive(Drop)]
pub(crate) struct Counts {
    pub num_files: usize,
    pub num_symlinks: usize,
    pub size_on_disk: u64,
}

// What an addition brings: the flags that are given, whether its link text is kept, whether it has a root, and its time
// as a word. The flags are a word: three bytes would be put together in one.
// Stays: no field is there or not by one of its flags.
#[derive(Clone, Copy)]
pub(crate) struct FileFacts {
    pub flags: u64,
    pub keeps_link: bool,
    pub has_root: bool,
    pub time: u64,
}

// A number where a flag is set, 0 where not.
fn bit(on: bool, value: u64) -> u64
    ensures { result ≡ bit_of on value }
{
    u64::from(on) * value
}

// The flags of a file's row.
pub(crate) fn row_flags(facts: FileFacts, outside: bool) -> u64
    ensures { result ≡ row_flags facts outside }
{
    facts.flags % SYMLINK_BIT
        + bit(
            facts.keeps_link,
            facts.flags / SYMLINK_BIT % 2 * SYMLINK_BIT,
        )
        + bit(facts.keeps_link, LINK_HELD_BIT)
        + bit(outside, OUTSIDE_BIT)
        + bit(facts.has_root, ROOT_BIT)
}

// What the set counts after an addition. A pad counts for no bytes on disk; past 64 bits their sum begins anew.
pub(crate) fn counts_after(fs: FileStorage, sizes: Sizes, facts: FileFacts) -> Counts
    requires { Countable fs facts.keeps_link }
    ensures { result ≡ counts_of fs sizes facts }
{
    let on_disk = if tables::is_pad(facts.flags) {
        0
    } else {
        sizes.size
    };
    Counts {
        num_files: fs.num_files + 1 + usize::from(sizes.pad.is_some()),
        num_symlinks: fs.num_symlinks + usize::from(facts.keeps_link),
        size_on_disk: fs.size_on_disk.wrapping_add(on_disk),
    }
}

// Whether a set that keeps a table of first files, with that many places, would have more pieces: by a product, which
// costs less than a quotient; one past 64 bits is past every total.
// Stays: here and below: that the piece length was tested is told by `requires`; layout's `high_of` says why.
fn lacks_places(fs: FileStorage, places: usize, total: u64) -> bool
    requires { bad_length fs.piece_length ≡ false }
    ensures { result ≡ places_lack fs places total }
{
    fs.indexed && (places as u64).saturating_mul(fs.piece_length) < total
}

// Whether the tables do not hold what the set counts, or the table of first files has too few places for it with a file
// and its pad.
pub(crate) fn is_full(fs: FileStorage, rooms: Rooms, places: usize, sizes: Sizes) -> bool
    requires { bad_length fs.piece_length ≡ false }
    ensures { result ≡ (not (holds_in fs rooms) || places_lack fs places sizes.total_size) }
{
    !change::holds(fs, rooms) || lacks_places(fs, places, sizes.total_size)
}
