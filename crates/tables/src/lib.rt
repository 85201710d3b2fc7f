// The set's tables: file rows, roots, directory rows and the text area, lent by the caller as slices of
// numbers, and the set's own record. Every function answers for tables of any content and
// length. Relies on `lists` for total accessors and on `path` for a path's leaf; what tables mean is in
// specs/Model.antt.
#![tactic(auto)]

mod lent;
mod lower;
mod rows;
mod span;
mod storage;

pub use lent::{Lent, LentSet, LentSetMut};
pub use lower::{Removed, lower_dirs, remove_row};
pub use rows::{
    DIR_WIDTH, FileEntry, LINK_HELD_BIT, MADE_BIT, NO_PATH, OUTSIDE_BIT, PAD_BIT, PATH_IS_ABSOLUTE,
    Presence, ROOT_BIT, ROOT_WIDTH, ROW_WIDTH, Row, SIZE_RANGE, SYMLINK_BIT, Sha256Hash, dir_at,
    directory_of, directory_span, entry_at, flags_at, has_root, holds_link, is_inside, is_outside,
    is_pad, is_symlink, link_span, offset_at, put_dir, put_entry, put_root, put_row, root_at,
    row_at, size_at, time_at,
};
pub use span::{Span, clipped, low_span, lowered, remove_text, split_leaf, text_at};
pub use storage::FileStorage;
