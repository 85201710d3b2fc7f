// Numbers as decimal digits, written and read, and right-justified in columns. It relies on access.rt and on the laws
// of proofs/Decimals.antt and Runs.antt.
ghost use Rattle.std.specs.Prelude.{◌≡◌, ◌+◌, ◌-◌, ◌≤◌, ◌<◌, length, drop, replicate};
ghost use Rattle.std.proofs.lemmas.List.Edits.{sets};
ghost use Rattle.lists.specs.Decimal.{decimal, column, digit_of, with_digit, number_of};

use crate::access::put;

// The number of digits of n.
#[tactic(auto, using(crate::proofs::Decimals::counting))]
pub fn digit_count(n: u64) -> usize
    ensures { result ≡ length (decimal n) }
{
    n.checked_ilog10().map_or(1, |k| k as usize + 1)
}

// The character of a digit.
fn glyph(digit: u64) -> u8
    requires { digit < 10 }
    ensures { result ≡ 48 + digit }
{
    b'0' + digit as u8
}

// Writes the last `count` digits of n from position `at` on, the last of them first.
// Stays: std writes a number to a heap's `String` or to a formatter. An array of the 20 digits that a number may have
// would be filled by this loop too, since one over `iter_mut().rev()` leaves only the array's length known, and then be
// copied.
#[tactic(auto, using(crate::proofs::Decimals::writing))]
fn put_digits(target: &mut [u8], at: usize, count: usize, n: u64)
    requires { (at < length target.old) × (count ≤ length (decimal n)) }
    ensures { target.new
        ≡ sets target.old at (drop (length (decimal n) - count) (decimal n)) }
{
    let mut rest = n;
    for i in (0..count).rev() {
        put(target, at + i, glyph(rest % 10));
        rest /= 10;
    }
}

// Writes the digits of n from position `at` on, and gives their number.
// Stays: n is the number that is written, and no length of `target`; `write!` gives an error where digits don't fit,
// and not their number.
#[tactic(auto, using(crate::proofs::Runs::storing))]
pub fn put_decimal(target: &mut [u8], at: usize, n: u64) -> usize
    ensures value { result ≡ length (decimal n) }
    ensures target_after { target.new ≡ sets target.old at (decimal n) }
{
    let k = digit_count(n);
    if at < target.len() {
        put_digits(target, at, k, n);
    }
    k
}

// Writes `count` blanks from position `at` on, as many of them as there is room for.
// Stays: `count` is the number of blanks, and no length of `target`; std's `fill` writes them.
#[tactic(auto, using(crate::proofs::Runs::storing))]
fn put_blanks(target: &mut [u8], at: usize, count: usize)
    ensures { target.new ≡ sets target.old at (replicate count 32) }
{
    if let Some((_front, rest)) = target.split_at_mut_checked(at) {
        let n = count.min(rest.len());
        rest[..n].fill(b' ');
    }
}

// Writes n right-justified in `width` columns from position `at` on.
// Stays: n is the number that is written, and no length of `target`; a column keeps the last digits of a longer number,
// and `write!` with a width writes all.
#[tactic(auto, using(crate::proofs::Decimals::drawing))]
pub fn put_column(target: &mut [u8], at: usize, width: usize, n: u64)
    ensures { target.new ≡ sets target.old at (column width n) }
{
    let k = digit_count(n);
    let blanks = width.saturating_sub(k);
    put_blanks(target, at, blanks);
    if blanks < target.len().saturating_sub(at) {
        put_digits(target, at + blanks, width.min(k), n);
    }
}

// The number that digits spell, if 64 bits hold it; no zero stands before other digits.
// Stays: std reads a number from a `str`, and takes a `+` and leading zeros.
pub fn parse_decimal(digits: &[u8]) -> Option<u64>
    ensures { result ≡ number_of digits.now }
{
    if let [] | [b'0', _, ..] = digits {
        return None;
    }
    digits.iter().try_fold(0, |n, c| with_digit(n, *c))
}

// n with one more digit, where 64 bits hold it.
fn with_digit(n: u64, c: u8) -> Option<u64>
    ensures { result ≡ with_digit n (digit_of c) }
{
    let digit = char::from(c).to_digit(10)?;
    n.checked_mul(10)?.checked_add(u64::from(digit))
}
