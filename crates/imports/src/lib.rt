// `import_filenames`, from file_storage.rs: names for many files at once, put to a set's renames. Relies on `renames`
// for the record, the order of its tables, the modes and the test of an entry's number, and on `rules` for the
// refusals.
#![tactic(auto)]

mod counted;
mod give;
mod import;
mod keep;
mod listed;
mod merge;
mod notes;

pub use import::import_filenames;
