// Plain answers about a set and its files, from file_storage.rs. A text is given by its span of the text area, or
// composed into a lent buffer. Relies on `rules` for the refusals, and on `tables`, `path` and `types`.
#![tactic(auto)]

mod file;
mod set;
mod text;

pub use file::{
    file_absolute_path, file_flags, file_offset, file_size, mtime, pad_file_at, root, root_of,
};
pub use set::{name, num_files, num_paths, path_at, piece_length, size_on_disk, total_size, v2};
pub use text::{file_name, internal_file_path, internal_symlink, symlink};
