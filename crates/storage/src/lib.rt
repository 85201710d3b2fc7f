// The set: opening and additions, from file_storage.rs. An addition is planned first, in `plan`, and written after; a
// refusal leaves every table untouched. Relies on `plan` and on the writers of `tables` and `lists`.
#![tactic(auto)]

mod add;
mod firsts;
mod opening;
mod write;

pub use add::add_file;
pub use opening::{open, open_indexed};
