// How many names a list gives, and how many bytes they have. Relies on notes.rt and on the laws of
// proofs/Counting.antt.
ghost use Rattle.std.specs.Prelude.{◌≡◌, ◌≤◌, length};
ghost use Rattle.renames.specs.Renames.{state_of};
ghost use Rattle.imports.specs.private.Importing.{renames_given};
ghost use Rattle.imports.specs.private.Merging.{Noted};

use crate::listed::NameList;
use crate::notes::is_last;
use renames::RenamedFiles;
use types::FileIndex;

// The record of the names that a list gives.
pub(crate) fn count_given(list: NameList<'_>, notes: &[u64]) -> RenamedFiles
    requires { Noted (length notes.now) list.numbers.now notes.now
        × (length list.numbers.now ≤ length list.lengths.now) }
    ensures { result
        ≡ state_of
        (renames_given (length notes.now) list.entry.numbers.now list.entry.lengths.now list.entry.names.now) }
{
    let mut at = 0;
    let mut count = 0;
    let mut bytes = 0;
    for (i, (number, length)) in list.numbers.iter().zip(list.lengths).enumerate() {
        let len = lists::part(list.names, at, *length as usize).len();
        at += len;
        if is_last(notes, FileIndex(*number), i) {
            count += 1;
            bytes += len;
        }
    }
    RenamedFiles {
        num_renames: count,
        text_len: bytes,
    }
}
