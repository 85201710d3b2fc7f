// The words of a line, parted by blanks and numbered from 0. A word that a line lacks has no bytes, and so is no string
// and no number. Relies on scan.rt, on `lists` to drop blanks, and on the laws of proofs/Scans.antt.
ghost use Rattle.std.specs.Prelude.{◌≡◌, false};
ghost use Rattle.script.specs.Words.{from_word, word_of, after_word, words_from};

use crate::scan::{before_first, past_word};

// The word of a number.
// Stays: callers hand the word to what reads it; a function for a number or a string of a line would only join the two,
// one for each kind of value.
pub fn word(line: &[u8], number: usize) -> &[u8]
    ensures { result.now ≡ word_of line.now number }
{
    let rest = from_word(line, number);
    &rest[..before_first(rest, b' ')]
}

// What stands after the word of a number.
pub fn after(line: &[u8], number: usize) -> &[u8]
    ensures { result.now ≡ after_word line.now number }
{
    past_word(from_word(line, number))
}

// What stands from the word of a number on.
// Stays: std's `split` gives the words, but not what stands after one, which `after` hands on.
#[tactic(auto, using(crate::proofs::Scans::blanks_passed, crate::proofs::Scans::word_passed))]
fn from_word(line: &[u8], number: usize) -> &[u8]
    ensures { result.now ≡ from_word number line.now }
{
    let mut rest = line;
    for _ in 0..number {
        rest = past_word(lists::unblanked(rest));
    }
    lists::unblanked(rest)
}

// The number of words of a line: the parts between blanks that hold a byte.
pub(crate) fn count(line: &[u8]) -> usize
    ensures { result ≡ words_from false line.now }
{
    line.split(|c| *c == b' ')
        .filter(|part| !part.is_empty())
        .count()
}
