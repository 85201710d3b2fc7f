// Names and paths of a set's files through its renames, from file_storage.rs. Relies on `renames` for the rename
// of a file, on `names` for composed paths and on `answers` for the set's own answers.
#![tactic(auto)]

mod compose;
mod question;
mod result;

pub use compose::file_path;
pub use question::{file_absolute_path, file_name};
pub use result::FileName;
