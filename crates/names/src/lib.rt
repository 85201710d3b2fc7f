// Composed paths and their hashes, from file_storage.rs. Relies on `path` for joins, on `crc32c` for the
// running hash and on `rules` for the refusals of a question.
#![tactic(auto)]

mod compose;
mod decide;
mod file;
mod kept;

pub use compose::compose_path;
pub use decide::{file_of, set_span};
pub use file::{file_path, file_path_hash, hash_led};
