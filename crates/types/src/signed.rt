// Signed numbers at the boundary: unsigned inside, signed in the Rust's signatures; and the methods of piece and file
// numbers. It relies on index.rt and refusal.rt.
ghost use Rattle.std.specs.Prelude.{◌≡◌, ◌-◌, ◌%◌, ◌^◌, pos, negsuc, if◌then◌else◌, nat_eq};
ghost use Rattle.types.specs.Refusals.{outcome};
ghost use Rattle.types.specs.Signed.{clamped_of, below_or, zigzag, unzigzag};

use crate::index::{FileIndex, PieceIndex};
use crate::refusal::Refusal;

// A signed number as an unsigned one, 0 where it is negative.
// Stays: without it callers in four crates would each write `u64::try_from(x).unwrap_or(0)`.
pub fn clamped(x: i64) -> u64
    ensures { result ≡ clamped_of x }
{
    u64::try_from(x).unwrap_or(0)
}

// The low 63 bits of a number as an `i64`: the number itself below 2^63.
// Stays: after the remainder `as` is exact, and `TryFrom` would add an error that can't come, here and below.
pub fn signed64(n: u64) -> i64
    ensures { result ≡ pos (n % 2 ^ 63) }
{
    (n % 0x8000_0000_0000_0000) as i64
}

// The low 31 bits of a number as an `i32`: the number itself below 2^31.
// Stays: one function for both types would need a trait that gives the modulus, for two lines.
pub fn signed32(n: u64) -> i32
    ensures { result ≡ pos (n % 2 ^ 31) }
{
    (n % 0x8000_0000) as i32
}

// An `i64` as a word, by zigzag: 0, −1, 1, −2, … are 0, 1, 2, 3, …. Below 0 the word is 2n + 1, with n = −1 − x; as a
// difference from the largest word the compiler makes it without a branch.
// Stays: std has no zigzag. `((x << 1) ^ (x >> 63)).cast_unsigned()` is of bits, and needs laws that lead from them to
// 2n and 2n + 1; this form is proved without any.
pub fn zigzag64(x: i64) -> u64
    ensures { result ≡ zigzag x }
{
    if x < 0 {
        let n = (-1 - x) as u64;
        return u64::MAX - (i64::MAX as u64 - n) * 2;
    }
    x as u64 * 2
}

// The `i64` of a word.
// Stays: std has no zigzag; half a word is below 2^63, so `as` is exact.
pub fn unzigzag64(word: u64) -> i64
    ensures { result ≡ unzigzag word }
{
    let half = (word / 2) as i64;
    if word % 2 == 0 {
        return half;
    }
    -1 - half
}

// Stays: document 01 asks for two tuple structs. A trait with `new`, `none` and `get`, which both have, needs two more
// methods, from an `i32` and to it, with an impl for each struct: more lines than the three twins.
impl PieceIndex {
    // Piece n, where n is below 2^31.
    pub fn new(n: u64) -> PieceIndex
        ensures { result.0 ≡ pos (n % 2 ^ 31) }
    {
        PieceIndex(signed32(n))
    }

    // The number −1, for no piece.
    // Stays: document 01 answers with −1 where a set or a file has no last piece, and the C interface hands that number
    // out; what makes the answer has an `Option` until here.
    pub fn none() -> PieceIndex
        ensures { result.0 ≡ negsuc 0 }
    {
        PieceIndex(-1)
    }

    // The last of n pieces, where n is at most 2^31; −1 where there is none.
    pub fn last_of(n: u64) -> PieceIndex
        ensures { result.0 ≡ (if nat_eq n 0 then negsuc 0 else pos ((n - 1) % 2 ^ 31)) }
    {
        n.checked_sub(1).map_or(PieceIndex::none(), PieceIndex::new)
    }

    // The number as a `usize`, 0 where it is negative, as in the Rust's release build.
    // Stays: a trait with this method needs one more, which gives an index's `i32`, an impl of that for each struct,
    // and an import at every call.
    pub fn get(self) -> usize
        ensures { result ≡ clamped_of self.0 }
    {
        usize::try_from(self.0).unwrap_or(0)
    }
}

impl FileIndex {
    // File n, where n is below 2^31.
    pub fn new(n: u64) -> FileIndex
        ensures { result.0 ≡ pos (n % 2 ^ 31) }
    {
        FileIndex(signed32(n))
    }

    // The number −1, for no file.
    // Stays: document 01 answers with −1 where no file has the root asked for, and the C interface hands that number
    // out.
    pub fn none() -> FileIndex
        ensures { result.0 ≡ negsuc 0 }
    {
        FileIndex(-1)
    }

    // The number as a `usize`, 0 where it is negative, as in the Rust's release build.
    // Stays: a trait with this method needs one more, which gives an index's `i32`, an impl of that for each struct,
    // and an import at every call.
    pub fn get(self) -> usize
        ensures { result ≡ clamped_of self.0 }
    {
        usize::try_from(self.0).unwrap_or(0)
    }

    // The number of one of `count` files, or refusal 11.
    pub fn within(self, count: usize) -> Result<usize, Refusal>
        ensures { outcome result ≡ below_or 11 count self.0 }
    {
        usize::try_from(self.0)
            .ok()
            .filter(|i| *i < count)
            .ok_or(Refusal::NoSuchFile)
    }
}
