// Printing the listing of document 01: the text of a set by its tables, or of a refusal and its line.
// Relies on `tables` and `path` for what a row means, on `rules` for the count of pieces, and on `lists` for digits and
// columns.
#![tactic(auto)]

mod print;

pub use print::{put_refusal, put_set};
