// What stands at a path in a set: a directory, a file or a flagged link; and the work space that its links need. Relies
// on `tables` for the set, and on `path` and `lists` for paths.
#![tactic(auto)]

mod parts;
mod set;
mod space;

pub use set::{
    Seen, covers, ends_with_name, file_at, is_directory, is_flagged, is_link, link_text, own_is,
    seen_as,
};
pub use space::{count_links, lacks_space};
