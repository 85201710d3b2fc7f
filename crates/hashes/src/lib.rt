// `all_path_hashes`, from file_storage.rs: the hash of each directory and of each part of one that stands before
// a separator, ascending. Relies on `names` for the hash of what stands before and on `crc32c` for the running hash.
#![tactic(auto)]

mod hashes;

pub use hashes::all_path_hashes;
