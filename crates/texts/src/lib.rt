// One link's text in a set's tables: removed from the text area, or written after its used part, with every span after
// it lowered. Relies on the writers of `tables` and `lists`, on the joins of `path`, and on `lookup` for a link's text.
#![tactic(auto)]

mod cut;
mod parts;
mod put;

pub use put::{empty_text, write_beside, write_own};
