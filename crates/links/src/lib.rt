// Which links' texts a cleaning keeps, from `sanitize_symlinks` of file_storage.rs: a verdict for each flagged link,
// with nothing that is lent written but the marks. Relies on `lookup` for what stands at a path and on `rope` for the
// path of a walk; what a walk must remember stands in local arrays.
#![tactic(auto)]

mod cut;
mod first;
mod flagged;
mod front;
mod head;
mod judge;
mod mark;
mod resolve;
mod scan;
mod second;

pub use flagged::Links;
pub use judge::{judge_links, links_to_judge};
pub use mark::{LinkVerdict, verdict_in};
