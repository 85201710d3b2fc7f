// Path splits and joins over bytes, from path.rs, with `/` as the separator. A split gives parts of
// the caller's slice; a join is written into a lent buffer, or refused with the buffer untouched.
// Relies on `lists` for copies and on `types` for the refusal.
#![tactic(auto)]

mod join;
mod split;

pub use join::{
    append_path, combine_path, is_alone, join_path, join_prefix, joined_length, separator,
};
pub use split::{
    filename, has_parent_path, is_closed, is_complete, lsplit_path, lsplit_path_at, rsplit_path,
    trimmed_length,
};
