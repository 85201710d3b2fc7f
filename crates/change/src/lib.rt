// What every change of a set shares: how much the lent tables hold, and in specs/ its answer, a set's record or a
// refusal, with what every table then holds. Relies on `tables` and `rules`.
#![tactic(auto)]

mod rooms;

pub use rooms::{Rooms, holds};
