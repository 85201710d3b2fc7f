// The words of a question after its name: a file's number, and byte strings, which are decoded into a buffer. Relies on
// `script` for both, on `lists` for parts of the buffer, and on `types` for the index of a file.
use types::FileIndex;

// The bytes of a buffer for what the words of a line stand for.
// Stays: there is no heap, so the buffer has the most bytes that a line has.
pub(crate) const BUFFER: usize = 65536;

// The file whose number is the first word.
pub(crate) fn file(line: &[u8]) -> Option<FileIndex> {
    Some(FileIndex(script::to_i32(script::word(line, 1))?))
}

// The byte string that a word is.
pub(crate) fn string<'a>(
    line: &[u8],
    number: usize,
    buffer: &'a mut [u8; BUFFER],
) -> Option<&'a [u8]> {
    let n = script::decode(script::word(line, number), buffer, 0)?;
    Some(lists::part(buffer, 0, n))
}

// The first two words as byte strings, one after the other in the buffer.
pub(crate) fn two_strings<'a>(
    line: &[u8],
    buffer: &'a mut [u8; BUFFER],
) -> Option<(&'a [u8], &'a [u8])> {
    let first = script::decode(script::word(line, 1), buffer, 0)?;
    let second = script::decode(script::word(line, 2), buffer, first)?;
    let a = lists::part(buffer, 0, first);
    let b = lists::part(buffer, first, second.saturating_sub(first));
    Some((a, b))
}

// The first two words as a file's number and a byte string.
pub(crate) fn file_and_string<'a>(
    line: &[u8],
    buffer: &'a mut [u8; BUFFER],
) -> Option<(FileIndex, &'a [u8])> {
    let index = file(line)?;
    Some((index, string(line, 2, buffer)?))
}
