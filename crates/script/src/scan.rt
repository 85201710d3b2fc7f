// Scans for a byte: how much stands before it, and what stands from there on. Relies on the laws of proofs/Scans.antt.
ghost use Rattle.std.specs.Prelude.{◌≡◌, ◌≤◌, length, drop};
ghost use Rattle.script.specs.Words.{count_before};

// How many bytes stand before the first byte c, or in all where there is none.
pub fn before_first(bytes: &[u8], c: u8) -> usize
    ensures value { result ≡ count_before c bytes.now }
    ensures within { result ≤ length bytes.now }
{
    bytes.iter().position(|b| *b == c).unwrap_or(bytes.len())
}

// What stands from the first blank on.
pub(crate) fn past_word(bytes: &[u8]) -> &[u8]
    ensures { result.now ≡ drop (count_before 32 bytes.now) bytes.now }
{
    &bytes[before_first(bytes, b' ')..]
}
