// Refusals in order: document 01's table, the rows for questions, rendered once. A call decides by them before it
// answers; an answer is a value or a refusal. Relies on `types`, `tables`, `lists` and `path`.
#![tactic(auto)]

mod decide;
mod test;

pub use decide::{Tests, ask_directory, ask_pieces, ask_set, file_in};
pub use test::{
    DEFAULT_BLOCK_SIZE, MAX_ENTRIES, MAX_FILE_OFFSET, MAX_PIECES, are_held, count_pieces,
    has_few_entries, has_many, holds_dirs, holds_roots, holds_rows, holds_set, holds_text,
    is_bad_length, is_bad_offset, is_bad_range, is_no_file, is_no_tree, is_there,
};
