// A cleaning by the C interface. Relies on `cleaning`; the record's words and the answer are those of lib.rt.
ghost use Rattle.std.specs.Prelude.{◌≡◌};
ghost use Rattle.lookup.specs.Lookup.{lent};
ghost use Rattle.cleaning.specs.Cleaning.{clean_stored};
ghost use Rattle.exports.specs.State.{storage_of};
ghost use Rattle.exports.specs.Cleanings.{CleaningReturned, cleaning_returned};

use crate::{State, put_answer, storage_at};

// `cleaning::sanitize_symlinks`.
// Stays: the C interface fixes the parameters and the answer.
pub fn niflathen_sanitize_symlinks(
    state: &mut State,
    rows: &mut [u64],
    dirs: &mut [u64],
    text: &mut [u8],
    marks: &mut [u8],
    scratch: &mut [u8],
    walk_path: &mut [u8],
) -> u32
    ensures { ◌≡◌ {A = CleaningReturned}
        (record {
          number = result;
          state = state.new;
          rows = rows.new;
          dirs = dirs.new;
          text = text.new;
          marks = marks.new;
          scratch = scratch.new;
          walk_path = walk_path.new;
        })
        (cleaning_returned state.old
        (clean_stored
        (lent (storage_of state.old) rows.old dirs.old text.old)
        marks.old scratch.old walk_path.old)) }
{
    let answer = cleaning::sanitize_symlinks(
        storage_at(state),
        rows,
        dirs,
        text,
        marks,
        scratch,
        walk_path,
    );
    put_answer(state, answer)
}
