// What an addition decides before it looks for room: the parts of its path, its size and pad, and the refusals but that
// of room, from file_storage.rs. Relies on the splits of `path` and the rules of `rules`; what an addition means is in
// specs/Addition.antt.
#![tactic(auto)]

mod checks;
mod info;
mod parts;

pub use checks::{Sizes, decide_sizes};
pub use info::{FileInfo, Given, given_name, keeps_link};
pub use parts::{PathKind, PathParts, parts_of};
