// The set's own record: counts, totals, and where the set's name lies. It goes in and comes back by value.
use crate::span::Span;

// What a set is besides its tables.
// Stays: its flags are facts of the set, and no field is there or missing by one of them; the table that `indexed`
// tells of is no field, but lent beside the record to every addition.
#[derive(Clone, Copy)]
pub struct FileStorage {
    // From 1 to 2147483647; anything else is refusal 1.
    pub piece_length: u64,
    pub v2: bool,
    pub num_files: usize,
    // Directory rows.
    pub num_paths: usize,
    // Link texts counted; a trimmed pad's still counts.
    pub num_symlinks: usize,
    pub name: Span,
    // Bytes of text held: the used part of the text area.
    pub text_len: usize,
    pub total_size: u64,
    pub size_on_disk: u64,
    // Whether `remove_tail_padding` ever removed a pad.
    pub trimmed: bool,
    // Whether the set keeps the first file of each piece in a table.
    pub indexed: bool,
}
