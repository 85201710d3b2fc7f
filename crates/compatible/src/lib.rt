// `files_compatible`, from file_storage.rs: whether two sets have the same layout and names. Relies on `names`
// for the parts of a file's path and on `path` for joins.
#![tactic(auto)]

mod compatible;
mod walk;

pub use compatible::files_compatible;
