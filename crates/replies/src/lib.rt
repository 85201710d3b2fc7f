// Answers to a script of calls, as lines of standard output: `ok` and the values after it, a refusal, or `badcall`.
// No contract can say what reaches standard output, so the public functions return only whether the line was written,
// and are lent nothing to change: there is nothing to promise but that they are safe and end. Relies on std's standard
// output, on `lists` and `tables` for parts of texts, on `script` for the bytes that are put plainly, on `rules` for
// the count of pieces, on `answers` and `renames` for the values that a table holds, and on the records of `types`.
#![tactic(auto)]

mod reply;
mod rows;
mod values;

pub use reply::{bad_call, done, refused};
pub use rows::{directories, export, first_files, slices};
pub use values::{ByteString, answer, composed, text, value};
