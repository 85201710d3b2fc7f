// File rows, roots and directory rows: read and written whole, and single fields and flags of a row. Relies on `lists`,
// span.rt and the laws of proofs/Words.antt.
ghost use Rattle.std.specs.Prelude.{◌≡◌, ℕ, ◌+◌, ◌*◌, ◌<◌, ◌^◌, get_or, replicate};
ghost use Rattle.std.proofs.lemmas.List.Edits.{sets};
ghost use Rattle.tables.specs.Rows.{row_width, row_at, packed, put_row, dir_at, put_dir, is_stored, directory_span};
ghost use Rattle.tables.specs.Rows.{link_span};
ghost use Rattle.tables.specs.Span.{text_at};
ghost use Rattle.tables.specs.Rows.{root_at, put_root, has};
ghost use Rattle.tables.specs.Rows.{pad_bit, symlink_bit, link_held_bit, outside_bit, root_bit};
ghost use Rattle.tables.specs.Entry.{presence_if, is_here, entry_at, rows_with, roots_with};

use crate::span::{Span, text_at};

// The words of a file row.
pub const ROW_WIDTH: usize = 8;

// The words of a directory row.
pub const DIR_WIDTH: usize = 2;

// The bytes of a root.
pub const ROOT_WIDTH: usize = 32;

// Bits of a row's flags. The file is a pad.
pub const PAD_BIT: u64 = 1;

// The file is a link.
pub const SYMLINK_BIT: u64 = 8;

// A link text is held.
pub const LINK_HELD_BIT: u64 = 16;

// The directory stands outside the set's name.
pub const OUTSIDE_BIT: u64 = 32;

// An addition made the pad.
pub const MADE_BIT: u64 = 64;

// A root is there.
pub const ROOT_BIT: u64 = 128;

// Offsets and sizes are held in 48 bits.
pub const SIZE_RANGE: u64 = 0x1_0000_0000_0000;

// Flags are held in 16 bits, in one word with the size.
const FLAGS_RANGE: u64 = 0x1_0000;

// The path index of a single name, which has no directory.
pub const NO_PATH: u64 = 1073741823;

// The path index of a file that was added by an absolute path.
pub const PATH_IS_ABSOLUTE: u64 = 1073741822;

// A root.
#[derive(Clone, Copy, PartialEq, Eq)]
pub struct Sha256Hash {
    pub bytes: [u8; ROOT_WIDTH],
}

impl Sha256Hash {
    // The root of zeros.
    pub fn new() -> Sha256Hash
        ensures { result.bytes ≡ replicate 32 0 }
    {
        let bytes = [0u8; ROOT_WIDTH];
        Sha256Hash { bytes }
    }
}

// Whether something that may be missing is there.
// Stays: document 01 asks for an enum of presence beside the root's bytes, in the place of `Option`.
#[derive(Clone, Copy)]
pub enum Presence {
    Absent,
    Present,
}

// The presence that a test tells.
impl From<bool> for Presence {
    ghost from_gives = { λ there presence. presence ≡ presence_if there };

    fn from(there: bool) -> Presence {
        if there {
            Presence::Present
        } else {
            Presence::Absent
        }
    }
}

// Whether what may be missing is there.
impl From<Presence> for bool {
    ghost from_gives = { λ presence there. there ≡ is_here presence };

    fn from(presence: Presence) -> bool {
        matches!(presence, Presence::Present)
    }
}

// A file's row as the table holds it.
#[derive(Clone, Copy)]
pub struct Row {
    pub offset: u64,
    pub size: u64,
    pub name: Span,
    // Stays: whether it is held is a bit of the table's word of flags. The words stay in the row where it is not, and a
    // removal lowers every row's spans; an `Option` would be made of the bit at each reading and lose them.
    pub link: Span,
    // The number of a directory, NO_PATH or PATH_IS_ABSOLUTE.
    // Stays: any word may stand in a lent row, and a trim reads rows and writes them back. An enum of the three would
    // be made of the word and turned back at each row, for `is_inside` and two tests for PATH_IS_ABSOLUTE.
    pub path_index: u64,
    pub flags: u64,
    // The modified time as a word (`types::zigzag64`).
    pub time: u64,
}

// A file: its row, and its root beside the root's presence.
// Stays: document 01 asks for the root's bytes beside an enum of presence in a file's record.
#[derive(Drop)]
pub struct FileEntry {
    pub row: Row,
    pub presence: Presence,
    pub root: Sha256Hash,
}

// Row i, zeros past the end.
pub fn row_at(rows: &[u64], i: usize) -> Row
    ensures { result ≡ row_at rows.now i }
{
    let [
        offset,
        packed,
        name_at,
        name_len,
        link_at,
        link_len,
        path_index,
        time,
    ] = words_at(rows, i);
    Row {
        offset: offset % SIZE_RANGE,
        size: packed % SIZE_RANGE,
        name: Span::from([name_at, name_len]),
        link: Span::from([link_at, link_len]),
        path_index,
        flags: packed / SIZE_RANGE % FLAGS_RANGE,
        time,
    }
}

// The words of row i, zeros past the end; a whole row is read without a test of each word.
fn words_at(rows: &[u64], i: usize) -> [u64; ROW_WIDTH]
    ensures { (k : ℕ) → k < row_width → get_or result k 0 ≡ get_or rows.now (i * row_width + k) 0 }
{
    if i < rows.len() / ROW_WIDTH
        && let Some(whole) = rows[i * ROW_WIDTH..].first_chunk()
    {
        return *whole;
    }
    let mut words = [0; ROW_WIDTH];
    if i < rows.len() {
        lists::copy_in(&mut words, lists::part(rows, i * ROW_WIDTH, ROW_WIDTH));
    }
    words
}

// Word k of row i, 0 past the end.
fn word_at(rows: &[u64], i: usize, k: usize) -> u64
    requires { k < 8 }
    ensures { result ≡ get_or rows.now (i * row_width + k) 0 }
{
    if rows.len() <= i {
        return 0;
    }
    lists::item_or(rows, i * ROW_WIDTH + k, 0)
}

// The offset of row i.
// Stays: it and `size_at` differ in the word; one function of a word's number would have each caller name it.
pub fn offset_at(rows: &[u64], i: usize) -> u64
    ensures { result ≡ (row_at rows.now i).offset }
{
    word_at(rows, i, 0) % SIZE_RANGE
}

// The size of row i.
pub fn size_at(rows: &[u64], i: usize) -> u64
    ensures { result ≡ (row_at rows.now i).size }
{
    word_at(rows, i, 1) % SIZE_RANGE
}

// The flags of row i.
pub fn flags_at(rows: &[u64], i: usize) -> u64
    ensures { result ≡ (row_at rows.now i).flags }
{
    word_at(rows, i, 1) / SIZE_RANGE % FLAGS_RANGE
}

// The time of row i, as the table holds it.
pub fn time_at(rows: &[u64], i: usize) -> u64
    ensures { result ≡ (row_at rows.now i).time }
{
    word_at(rows, i, 7)
}

// A size and flags in one word.
fn packed_word(size: u64, flags: u64) -> u64
    ensures { result ≡ packed size flags }
{
    size % SIZE_RANGE + flags % FLAGS_RANGE * SIZE_RANGE
}

// Stores words side by side from position `at` on, as many of them as there is room for; where all fit, they are stored
// without a test of each. Its callers test the length before they multiply by their width; here the product would ask
// for a bound of both.
// Stays: tried, where only some fit, `lists::copy_in` in the place of the loop: the compiler keeps the words of each row in
// memory, and lowering the spans of a row took 9.8 ns in the place of 3.6 (with `words_at` by eight plain reads).
#[tactic(auto, using(crate::proofs::Words::storing))]
fn put_words<const N: usize>(target: &mut [u64], at: usize, words: &[u64; N])
    ensures { target.new ≡ sets target.old at words.now }
{
    if let Some((_front, rest)) = target.split_at_mut_checked(at) {
        if let Some(whole) = rest.first_chunk_mut::<N>() {
            *whole = *words;
        } else {
            for (k, word) in words.iter().enumerate() {
                lists::put(rest, k, *word);
            }
        }
    }
}

// Writes row i, nothing past the end.
// Stays: a row is eight words of a lent table (docs/DECISIONS.md, The set 1); size and flags share one of them, so that
// the record's own memory is no row that could be copied.
pub fn put_row(rows: &mut [u64], i: usize, row: Row)
    ensures { rows.new ≡ put_row rows.old i row }
{
    if rows.len() <= i {
        return;
    }
    let words = [
        row.offset,
        packed_word(row.size, row.flags),
        row.name.at as u64,
        row.name.len as u64,
        row.link.at as u64,
        row.link.len as u64,
        row.path_index,
        row.time,
    ];
    put_words(rows, i * ROW_WIDTH, &words);
}

// Directory row i, zeros past the end; one test of the length serves both words of a whole row.
// Stays: tried, with a test of each word, as `word_at` has, going over 50 directories takes 144 ns by rustc, and so 59.
// `links` goes over them so, and an addition to a directory reads the last row by this; both are to take no longer than
// they do (docs/BENCHMARKS.md, the bar).
pub fn dir_at(dirs: &[u64], i: usize) -> Span
    ensures { result ≡ dir_at dirs.now i }
{
    if i < dirs.len() / DIR_WIDTH {
        return Span::from([dirs[i * DIR_WIDTH], dirs[i * DIR_WIDTH + 1]]);
    }
    if dirs.len() <= i {
        return Span::empty();
    }
    Span {
        at: lists::item_or(dirs, i * DIR_WIDTH, 0) as usize,
        len: 0,
    }
}

// Writes directory row i, nothing past the end.
// Stays: std copies no record into words; the two numbers of a span are made words here, and `put_words` stores them as
// far as the table goes.
pub fn put_dir(dirs: &mut [u64], i: usize, s: Span)
    ensures { dirs.new ≡ put_dir dirs.old i s }
{
    if dirs.len() <= i {
        return;
    }
    put_words(dirs, i * DIR_WIDTH, &[s.at as u64, s.len as u64]);
}

// Whether a path index is that of a stored directory.
pub fn is_inside(path_index: u64) -> bool
    ensures { result ≡ is_stored path_index }
{
    path_index != NO_PATH && path_index != PATH_IS_ABSOLUTE
}

// Where the text of a file's directory lies; a span of no bytes for a single name and an absolute path.
pub fn directory_span(dirs: &[u64], row: Row) -> Span
    ensures { result ≡ directory_span dirs.now row }
{
    if is_inside(row.path_index) {
        return dir_at(dirs, row.path_index as usize);
    }
    Span::empty()
}

// The text of a file's directory; no bytes for a single name and an absolute path.
pub fn directory_of<'a>(dirs: &[u64], text: &'a [u8], row: Row) -> &'a [u8]
    ensures { result.now ≡ text_at text.now (directory_span dirs.now row) }
{
    text_at(text, directory_span(dirs, row))
}

// Where a file's link text lies; a span of no bytes where none is held.
pub fn link_span(row: Row) -> Span
    ensures { result ≡ link_span row }
{
    if holds_link(row.flags) {
        row.link
    } else {
        Span::empty()
    }
}

// The root of row i, zeros past the end.
#[tactic(auto, using(crate::proofs::Words::root_copied))]
pub fn root_at(roots: &[u8], i: usize) -> Sha256Hash
    ensures { result.bytes ≡ root_at roots.now i }
{
    let mut bytes = [0u8; ROOT_WIDTH];
    if roots.len() / ROOT_WIDTH < i {
        return Sha256Hash { bytes };
    }
    lists::copy_in(&mut bytes, lists::part(roots, i * ROOT_WIDTH, ROOT_WIDTH));
    Sha256Hash { bytes }
}

// Writes the root of row i, nothing past the end.
// Stays: it is the copy of `lists`, which drops what has no place in the table, where `copy_from_slice` asks for it.
#[tactic(auto, using(crate::proofs::Words::storing))]
pub fn put_root(roots: &mut [u8], i: usize, root: Sha256Hash)
    ensures { roots.new ≡ put_root roots.old i root.bytes }
{
    if roots.len() / ROOT_WIDTH < i {
        return;
    }
    let bytes = root.bytes;
    lists::copy_after(roots, i * ROOT_WIDTH, &bytes);
}

// Whether a row's flags have a bit, which is given by its value.
fn has(flags: u64, bit: u64) -> bool
    requires { 0 < bit }
    ensures { result ≡ has flags bit }
{
    flags / bit % 2 == 1
}

// Whether a row's flags have pad.
// Stays: each of these five names a bit for its callers; with one function of a bit each caller would give the bit.
pub fn is_pad(flags: u64) -> bool
    ensures { result ≡ has flags pad_bit }
{
    has(flags, PAD_BIT)
}

// Whether a row's flags have symlink.
pub fn is_symlink(flags: u64) -> bool
    ensures { result ≡ has flags symlink_bit }
{
    has(flags, SYMLINK_BIT)
}

// Whether a row holds a link text.
pub fn holds_link(flags: u64) -> bool
    ensures { result ≡ has flags link_held_bit }
{
    has(flags, LINK_HELD_BIT)
}

// Whether a row's directory stands outside the set's name.
pub fn is_outside(flags: u64) -> bool
    ensures { result ≡ has flags outside_bit }
{
    has(flags, OUTSIDE_BIT)
}

// Whether a row has a root.
pub fn has_root(flags: u64) -> bool
    ensures { result ≡ has flags root_bit }
{
    has(flags, ROOT_BIT)
}

// File i, its row and its root.
pub fn entry_at(rows: &[u64], roots: &[u8], i: usize) -> FileEntry
    ensures { result ≡ entry_at rows.now roots.now i }
{
    let row = row_at(rows, i);
    FileEntry {
        row,
        presence: Presence::from(has_root(row.flags)),
        root: root_at(roots, i),
    }
}

// Writes file i: its row, and its root where it is present.
// Stays: a record goes to two lent tables, words to one and bytes to the other.
pub fn put_entry(rows: &mut [u64], roots: &mut [u8], i: usize, entry: FileEntry)
    ensures rows_after { rows.new ≡ rows_with rows.old i entry }
    ensures roots_after { roots.new ≡ roots_with roots.old i entry }
{
    put_row(rows, i, entry.row);
    if let Presence::Present = entry.presence {
        put_root(roots, i, entry.root);
    }
}
