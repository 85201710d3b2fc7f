// Quotients and remainders of `u64` that answer for every pair of numbers, and the exponent of a power of two. A power
// of two divides by a shift, as most piece lengths do. It relies on the laws of proofs/Quotients.antt and
// proofs/Powers.antt.
ghost use Rattle.std.specs.Prelude.{◌≡◌, ◌/◌, ◌%◌, ◌^◌, ◌<◌, ℕ, Some, IfSome};
ghost use Rattle.lists.specs.Lists.{ceiling};

// The exponent of d, where d is a power of two: the number of its low zero bits.
pub fn exponent(d: u64) -> Option<u32>
    ensures power { IfSome result (λ bits. (bits < 64) × (d ≡ 2 ^ bits)) }
    ensures only { (k : ℕ) → k < 64 → d ≡ 2 ^ k → result ≡ Some k }
{
    d.is_power_of_two().then_some(d.trailing_zeros())
}

// `n / d`, or 0 where d is 0.
pub fn div(n: u64, d: u64) -> u64
    ensures { result ≡ n / d }
{
    match exponent(d) {
        Some(bits) => n >> bits,
        None => n.checked_div(d).unwrap_or(0),
    }
}

// `n % d`, or n where d is 0.
pub fn rem(n: u64, d: u64) -> u64
    ensures { result ≡ n % d }
{
    match exponent(d) {
        Some(bits) => n % (1 << bits),
        None => n.checked_rem(d).unwrap_or(n),
    }
}

// `n / d` rounded up, or 0 where d is 0.
// Stays: std's `div_ceil` asks for a d that is not 0, and divides where `div` shifts.
pub fn div_ceil(n: u64, d: u64) -> u64
    ensures { result ≡ ceiling n d }
{
    if n == 0 || d == 0 {
        return 0;
    }
    div(n - 1, d) + 1
}
