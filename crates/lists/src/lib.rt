// Total accessors over lent slices: each answers whatever the slice holds and however long it is.
// What a function writes past a slice's end is dropped, and what it reads there is a default or nothing.
// Beside them are quotients that answer for every pair of numbers, powers of two, and decimal digits. The crate relies
// on the kit only; its laws on lists and numbers are in proofs/, stated once for all crates.
#![tactic(auto)]

mod access;
mod decimal;
mod number;

pub use access::{copy_after, copy_in, item_or, move_part, part, put, same, unblanked};
pub use decimal::{digit_count, parse_decimal, put_column, put_decimal};
pub use number::{div, div_ceil, exponent, rem};
