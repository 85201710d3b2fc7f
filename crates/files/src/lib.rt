// Layout answers about one file, from file_storage.rs: its pieces, blocks and trees, and `map_file`. Every answer
// decides document 01's refusals first, in their order. Relies on `rules` for the refusals, and on `answers`, `merkle`,
// `layout`, `tables`, `types` and `lists`.
#![tactic(auto)]

mod asked;
mod file;
mod list;
mod number;

pub use file::{
    file_first_block_node, file_first_piece_node, file_index_for_root, file_num_blocks,
    file_num_pieces, file_piece_range, file_piece_range_exclusive, file_piece_range_inclusive,
    last_piece_index_at_file, map_file, piece_index_at_file,
};
pub use list::map_files;
