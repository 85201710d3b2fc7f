// Reading the lines of the input of the listing of document 01: the numbers, flags and paths in them.
// specs/Form.antt says what form a line has. Relies on `lists` for digits.
#![tactic(auto)]

mod form;

pub use form::{FileLine, file_in, piece_length_in};
