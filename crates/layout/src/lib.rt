// Layout answers, from file_storage.rs: pieces, files at offsets, and the slices of a block, one after another. Every
// answer tests document 01's refusals first, in its order. Relies on `rules` for the refusals, and on `tables`, `types`
// and `lists`.
#![tactic(auto)]

mod asked;
mod piece;
mod search;
mod slices;
mod start;
mod window;

pub use piece::{
    blocks_in_piece2, blocks_per_piece, file_index_at_offset, file_index_at_piece, file_range,
    last_file_index_at_piece, last_piece, num_pieces, piece_range, piece_size, piece_size2,
};
pub use slices::{Slice, Slices};
pub use start::{Cursor, has_room, start_block};
pub use window::{Window, no_window, window_for};
