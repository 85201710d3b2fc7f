// Roots in a script's form: 64 lower-case hex digits, or `*XX` for 32 bytes of that value, its digits of either case.
// Relies on strings.rt for hex digits, and on an invariant of proofs/Units.antt.
ghost use Rattle.std.specs.Prelude.{◌≡◌};
ghost use Rattle.script.specs.Roots.{root_of, spelt_of};

use crate::strings::hex_byte;

// The root that a word is.
// Stays: std's `from_str_radix` reads one number from a `str`, with letters of either case; none reads 32 bytes, and
// `*XX` is the script's own form.
pub fn to_root(word: &[u8]) -> Option<[u8; 32]>
    ensures { result ≡ root_of word.now }
{
    match word {
        [b'*', high, low] => {
            let byte = hex_byte(high.to_ascii_lowercase(), low.to_ascii_lowercase(), b'a')?;
            Some([byte; 32])
        }
        [b'*', ..] => None,
        _ => spelt(word),
    }
}

// The root that 64 digits spell.
fn spelt(word: &[u8]) -> Option<[u8; 32]>
    ensures { result ≡ spelt_of word.now }
{
    let mut root = [0u8; 32];
    let mut rest = word;
    // Stays: zipped with the pairs of digits, `iter_mut` tells a proof nothing of the bytes that are written.
    for byte in &mut root {
        let [high, low, after @ ..] = rest else {
            return None;
        };
        *byte = hex_byte(*high, *low, b'a')?;
        rest = after;
    }
    rest.is_empty().then_some(root)
}
