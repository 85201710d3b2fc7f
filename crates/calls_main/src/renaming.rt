// `rename I :NEW`: the set's places of the tables of renames are lent to the library. Relies on `renames` and
// `script`, and on the module for sets.
use crate::input::{ROOM, between};
use crate::places::first_mut;
use crate::sets::{Call, Made, Set};
use types::FileIndex;

// `rename I :NEW`.
pub(crate) fn rename(call: Call<'_>) -> Option<Made> {
    let Call { line, set, tables } = call;
    let index = FileIndex(script::to_i32(script::word(line, 1))?);
    let mut name = [0u8; ROOM];
    let length = script::decode(script::word(line, 2), &mut name, 0)?;
    let counts = set.counts;
    let res = renames::rename_file(
        set.fs,
        set.held,
        first_mut(&mut tables.entries, counts.entries),
        first_mut(&mut tables.area, counts.area),
        index,
        between(&name, 0, length),
    );
    Some(Made::from(res.map(|held| Set { held, ..set })))
}
