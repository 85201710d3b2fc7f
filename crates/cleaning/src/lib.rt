// `sanitize_symlinks`, from file_storage.rs: what a cleaning writes after `links` has judged every link.
// It relies on `texts` for one link's text, on `links` and `lookup` for flagged links and their verdicts, on `path` for
// a join's length, and on the total accessors of `tables`.
#![tactic(auto)]

mod clean;
mod rewrite;
mod room;

pub use clean::sanitize_symlinks;
