// Trims: `remove_tail_padding`, from file_storage.rs. The pad is searched first and removed after; a refusal leaves
// every table untouched. Relies on `change` for room and for the form of the answer, and on the writers of `tables`.
#![tactic(auto)]

mod trim;

pub use trim::remove_tail_padding;
