// What stands in a line of a script of calls: words, the form of a call, numbers, byte strings and roots. Relies on
// `lists` to compare words and to read digits; specs/ says what a line holds.
#![tactic(auto)]

mod forms;
mod numbers;
mod roots;
mod scan;
mod strings;
mod words;

pub use forms::has_form;
pub use lists::parse_decimal as to_u64;
pub use numbers::{to_i32, to_i64};
pub use roots::to_root;
pub use scan::before_first;
pub use strings::{decode, is_plain};
pub use words::{after, word};
