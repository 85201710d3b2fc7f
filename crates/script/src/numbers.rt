// Numbers in a script's form: decimal digits with no leading zero, as they are printed, with `-` where the number is
// negative. Relies on `lists` to read the digits.
ghost use Rattle.std.specs.Prelude.{◌≡◌};
ghost use Rattle.script.specs.Numbers.{signed_of, negative_of};

// The `i64` that a word is.
// Stays: std reads a number from a `str`, and takes a `+` and leading zeros, which a script's form lacks.
pub fn to_i64(word: &[u8]) -> Option<i64>
    ensures { result ≡ signed_of 63 word.now }
{
    if let [b'-', digits @ ..] = word {
        return minus(lists::parse_decimal(digits)?);
    }
    i64::try_from(lists::parse_decimal(word)?).ok()
}

// Minus a number from 1 to 2^63.
fn minus(n: u64) -> Option<i64>
    ensures { result ≡ negative_of 63 (Some n) }
{
    if n == 0 {
        return None;
    }
    0i64.checked_sub_unsigned(n)
}

// The `i32` that a word is.
// Stays: it is std's `TryFrom` of the `i64` that the word is; one function for any `T: TryFrom<i64>` would need T's
// width in its clause, which the bound doesn't tell.
pub fn to_i32(word: &[u8]) -> Option<i32>
    ensures { result ≡ signed_of 31 word.now }
{
    i32::try_from(to_i64(word)?).ok()
}
