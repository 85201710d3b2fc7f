// The path of a walk through links, held as frames: its bytes are read where they stand, and nothing is composed.
// Relies on `tables` and `lookup` for what a row says of a link, and on `path` and `lists` for paths.
#![tactic(auto)]

mod bytes;
mod frame;
mod lead;
mod part;
mod place;

pub use bytes::Bytes;
pub use frame::{FRAME_WIDTH, Path, is_in, start_in, tail_in};
pub use lead::{Lead, lead_byte, lead_length};
pub use place::Place;
