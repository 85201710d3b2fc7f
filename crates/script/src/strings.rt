// Byte strings in a script's form: `:` and the bytes, all but graphic ASCII and `%` itself as `%XX` in upper-case
// hex. A graphic character may be coded too. Relies on an invariant of proofs/Units.antt.
ghost use Rattle.std.specs.Prelude.{◌≡◌, ◌<◌, length, IfSome, MatchOption};
ghost use Rattle.std.proofs.lemmas.List.Edits.{sets};
ghost use Rattle.script.specs.Strings.{is_plain, hex_from, byte_of, fault, led, text_in, string_of, end_of};

// Writes the bytes that a word stands for after the first `used` bytes of `target`, and gives where they end. Where
// the word is no string or `target` is too short, the bytes before the first fault are written, as far as there is
// room for them.
// Stays: texts are decoded one after the other into one buffer, each from the end of the one before; for a slice of the
// rest, callers would test each end against the buffer, and add it to what is given.
#[tactic(auto, using(lists::proofs::Runs::storing))]
pub fn decode(word: &[u8], target: &mut [u8], used: usize) -> Option<usize>
    ensures result_value { result ≡ end_of (string_of word.now) used (length target.old) }
    ensures target_after { target.new ≡ sets target.old used (string_of word.now).bytes }
{
    if target.len() < used {
        return None;
    }
    let [b':', text @ ..] = word else {
        return None;
    };
    let mut rest = text;
    let mut n = used;
    // Stays: a byte has one character or three, and no iterator over slices steps by the one or the other.
    while !rest.is_empty() {
        let (byte, after) = first_byte(rest)?;
        // Stays: std's `get_mut` says which byte it lends, and nothing of `target` once the byte is written.
        if target.len() <= n {
            return None;
        }
        target[n] = byte;
        n += 1;
        rest = after;
    }
    Some(n)
}

// The byte that a plain character is, or that `%XX` codes, at the start of a text, and what stands after it.
fn first_byte(text: &[u8]) -> Option<(u8, &[u8])>
    requires { 0 < length text.now }
    ensures shorter { IfSome result (λ p. length p.1.now < length text.now) }
    ensures value { MatchOption result (text_in text.now ≡ fault) (λ p. text_in text.now ≡ led p.0 (text_in p.1.now)) }
{
    match text {
        [b'%', high, low, rest @ ..] => Some((hex_byte(*high, *low, b'A')?, rest)),
        [c, rest @ ..] if is_plain(*c) => Some((*c, rest)),
        _ => None,
    }
}

// The byte of two hex digits whose letters begin with `ten`, `A` or `a`.
pub(crate) fn hex_byte(high: u8, low: u8, ten: u8) -> Option<u8>
    requires { ten < 128 }
    ensures { result ≡ byte_of (hex_from ten high) (hex_from ten low) }
{
    Some(hex_value(high, ten)? * 16 + hex_value(low, ten)?)
}

// The value of a hex digit whose letters begin with `ten`, `A` or `a`.
// Stays: std's `to_digit` takes letters of either case, and a string takes upper-case ones only, the 64 digits of
// a root lower-case ones.
fn hex_value(c: u8, ten: u8) -> Option<u8>
    requires { ten < 128 }
    ensures { result ≡ hex_from ten c }
{
    if c.is_ascii_digit() {
        return Some(c - b'0');
    }
    if (ten..=ten + 5).contains(&c) {
        return Some(c - ten + 10);
    }
    None
}

// Whether a byte stands for itself: graphic ASCII but `%`.
pub fn is_plain(c: u8) -> bool
    ensures { result ≡ is_plain c }
{
    c.is_ascii_graphic() && c != b'%'
}
