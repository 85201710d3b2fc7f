// Reading a line of an input: numbers in columns, the piece length and file lines. Relies on `lists` to drop
// blanks and to read digits, and on the laws of proofs/Reading.antt.
ghost use Rattle.std.specs.Prelude.{◌≡◌, ◌≤◌, length};
ghost use Rattle.listing_input.specs.Form.{number_in, only_if};
ghost use Rattle.listing_input.specs.Form.{piece_length_in, are_flags, file_in};
ghost use Rattle.listing_input.specs.Answers.{file_says};

// What a file line says.
#[derive(Clone, Copy)]
pub struct FileLine<'a> {
    pub size: u64,
    pub flags: u64,
    pub path: &'a [u8],
}

// The number in a column, right-justified.
// Stays: it is two calls of `lists`, one for the blanks and one for the digits.
#[tactic(auto, using(crate::proofs::Reading::spelt))]
fn number_in(column: &[u8]) -> Option<u64>
    requires { length column.now ≤ 15 }
    ensures { result ≡ number_in column.now }
{
    lists::parse_decimal(lists::unblanked(column))
}

// The piece length in the first line.
pub fn piece_length_in(line: &[u8]) -> Option<u64>
    ensures { result ≡ piece_length_in line.now }
{
    if line.len() != 10 {
        return None;
    }
    number_in(line).filter(|n| *n <= 2147483647)
}

// Whether a number is a sum of 1, 2, 4 and 16.
fn are_flags(n: u64) -> bool
    ensures { result ≡ are_flags n }
{
    matches!(n, 0..=7 | 16..=23)
}

// The flags in a column.
fn flags_in(column: &[u8]) -> Option<u64>
    requires { length column.now ≤ 15 }
    ensures { result ≡ only_if are_flags (number_in column.now) }
{
    number_in(column).filter(|n| are_flags(*n))
}

// The size, the flags and the path in a file line.
pub fn file_in(line: &[u8]) -> Option<FileLine<'_>>
    ensures { file_says result ≡ file_in line.now }
{
    if line.len() < 19 || line[15] != b' ' || line[18] != b' ' {
        return None;
    }
    Some(FileLine {
        size: number_in(&line[..15])?,
        flags: flags_in(&line[16..18])?,
        path: &line[19..],
    })
}
