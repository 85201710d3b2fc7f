// `clean`: the set's places of the tables and a work space of the program's own are lent to the library. Relies on
// `cleaning`. A small work space serves most sets; the large one is filled only where a cleaning in the small one is
// refused. The work space is lent full of one byte: a refusal must leave it so, and a cleaning must clear it.
ghost use Rattle.std.specs.Prelude.{◌<◌};

use crate::places::{Tables, first_mut};
use crate::sets::{Call, Made, Set};

// The byte that the work space is lent full of.
const FILL: u8 = 7;

// The most that a stage needs: for 256 links in directories of 4096 bytes, and as many bytes of texts as a set can
// hold.
pub(crate) const LARGE_STAGE: usize = 1311232;

// `clean`.
pub(crate) fn clean(call: Call<'_>) -> Made {
    let Call { set, tables, .. } = call;
    let made = clean_in::<2048, 4096>(set, tables);
    match made {
        Made::Refused(_) => clean_in::<LARGE_STAGE, 2622464>(set, tables),
        _ => made,
    }
}

// A cleaning with as much of a work space as the set is lent; where that is left otherwise than it must, that is the
// answer.
fn clean_in<const STAGE: usize, const PATH: usize>(set: Set, tables: &mut Tables) -> Made
    requires { (STAGE < 9223372036854775808) × (PATH < 9223372036854775808) }
{
    let mut marks = [FILL; 256];
    let mut stage = [FILL; STAGE];
    let mut path = [FILL; PATH];
    let counts = set.counts;
    let work = set.work;
    let twice = work.sum.min(LARGE_STAGE) * 2;
    let res = cleaning::sanitize_symlinks(
        set.fs,
        first_mut(&mut tables.rows, counts.rows),
        first_mut(&mut tables.dirs, counts.dirs),
        first_mut(&mut tables.text, counts.text),
        first_mut(&mut marks, work.marks),
        first_mut(&mut stage, work.sum),
        first_mut(&mut path, twice),
    );
    let byte = match res {
        Ok(_) => 0,
        Err(_) => FILL,
    };
    if !all_are(lists::part(&marks, 0, work.marks), byte)
        || !all_are(lists::part(&stage, 0, work.sum), byte)
        || !all_are(lists::part(&path, 0, twice), byte)
    {
        return Made::Spoilt;
    }
    Made::from(res.map(|fs| Set { fs, ..set }))
}

// Whether all bytes are this one.
fn all_are(bytes: &[u8], byte: u8) -> bool {
    bytes.iter().all(|held| *held == byte)
}
