// `RenamedFiles`, from file_storage.rs: other paths for a set's files, in lent tables of their own, the set
// untouched. Relies on `tables` for the set's record and spans and on `rules` for the refusals of a question.
#![tactic(auto)]

mod change;
mod check;
mod find;
mod lent;
mod rename;
mod slot;
mod splice;

pub use change::rename_file;
pub use check::is_in_order;
pub use find::{export_filename, find_rename};
pub use lent::LentRenames;
pub use rename::{ENTRY_WIDTH, Rename, RenameMode, RenamedFiles};
pub use slot::is_named;
