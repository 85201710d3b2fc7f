// Where everything of an addition goes, and refusal 10: its plan, from file_storage.rs. Nothing is written. Relies on
// `additions` for the parts of the path and the other refusals, and on `change` for the rooms of the tables.
#![tactic(auto)]

mod counts;
mod dirs;
mod plan;

pub use plan::{AddPlan, NewDir, plan_add};
