// `map_file` for a list of questions: the set is tested once, and each question in a loop. It relies on file.rt, on the
// laws of words stored side by side and of rows written one after another (tables, proofs/Words.antt and
// proofs/Filled.antt) and on those of proofs/Columns.antt and proofs/Words.antt.
ghost use Rattle.std.specs.Prelude.{◌≡◌, ◌+◌, ◌*◌, ◌/◌, ◌<◌, ◌≤◌, ◌==◌, length};
ghost use Rattle.std.proofs.lemmas.List.Edits.{sets};
ghost use Rattle.tables.specs.Rows.{filled};
ghost use Rattle.rules.specs.Rules.{first_of};
ghost use Rattle.rules.specs.Bounds.{clamped_of};
ghost use Rattle.rules.specs.Results.{request_says};
ghost use Rattle.files.specs.private.Deciding.{set_rules};
ghost use Rattle.files.specs.List.{listed_says, answer_words, answer_at, files_mapped};

use crate::file::{map_tested, passes_set};
use tables::FileStorage;
use types::{FileIndex, PeerRequest, Refusal};

// An `i32` as a word, 0 where it is negative.
// Stays: `types::clamped` gives 64 bits, and an answer's words have 32; `u32::try_from(x).unwrap_or(0)` is no shorter.
fn word32(x: i32) -> u32
    ensures { result ≡ clamped_of x }
{
    x.max(0) as u32
}

// Puts four words side by side, from position `at` on.
// Stays: tried, `copy_from_slice`, which compares the places of both slices, and `first_chunk_mut`, which tests for
// room: a question takes 64 and 55 instructions in the place of 44.
#[tactic(auto, using(tables::proofs::Words::stored_more, tables::proofs::Words::stored_all))]
fn put_words(answers: &mut [u32], at: usize, words: &[u32; 4])
    requires { at + 3 < length answers.old }
    ensures { answers.new ≡ sets answers.old at words.now }
{
    for (k, word) in words.iter().enumerate() {
        answers[at + k] = *word;
    }
}

// Puts the words of the answer to question i.
// Stays: an answer is four words of the table that the C interface lends.
fn put_answer(answers: &mut [u32], i: usize, answer: Result<PeerRequest, Refusal>)
    requires { i * 4 + 3 < length answers.old }
    ensures { answers.new ≡ sets answers.old (i * 4) (answer_words (request_says answer)) }
{
    match answer {
        Ok(r) => put_words(
            answers,
            i * 4,
            &[0, word32(r.piece.0), word32(r.start), word32(r.length)],
        ),
        Err(e) => put_words(answers, i * 4, &[u32::from(e), 0, 0, 0]),
    }
}

// Answers each question; PASSES says whether the set passes its own tests, so that no question asks for it.
// Stays: a table for each number of a question is what the C interface lends.
fn answer_each<const PASSES: bool>(
    fs: FileStorage,
    rows: &[u64],
    files: &[i32],
    offsets: &[i64],
    sizes: &[i32],
    answers: &mut [u32],
)
    requires { (PASSES ≡ (first_of (set_rules fs (length rows.now / 8)) == 0)) ×
        (length files.now ≤ length offsets.now) ×
        (length files.now ≤ length sizes.now) ×
        (length files.now ≤ length answers.old / 4) }
    ensures { answers.new
        ≡ sets answers.old 0
        (filled (answer_at fs rows.now files.now offsets.now sizes.now) 0
        (length files.now)) }
{
    // The columns have one length, so that one test ends the loop.
    let n = files.len();
    let columns = files.iter().zip(&offsets[..n]).zip(&sizes[..n]);
    // Stays: an answer is put by its number. Tried, with `answers.chunks_exact_mut(4)` in the zip, and with the table
    // walked down by `split_at_mut(4)`, `returns` stayed open: after both loops only the table's length is known.
    for (i, ((file, offset), size)) in columns.enumerate() {
        let answer = map_tested::<PASSES>(fs, rows, FileIndex(*file), *offset, *size);
        put_answer(answers, i, answer);
    }
}

// `map_file` for each question: question i is file, offset and size i, and its answer is put as four words from 4 × i
// on. It gives the number of questions.
// Stays: a table for each number of a question is what the C interface lends.
pub fn map_files(
    fs: FileStorage,
    rows: &[u64],
    files: &[i32],
    offsets: &[i64],
    sizes: &[i32],
    answers: &mut [u32],
) -> Result<usize, Refusal>
    ensures { listed_says result answers.new
        ≡ files_mapped fs rows.now files.now offsets.now sizes.now
        answers.old }
{
    let n = files.len();
    let room = offsets.len().min(sizes.len().min(answers.len() / 4));
    if room < n {
        return Err(Refusal::NoRoom);
    }
    if passes_set(fs, rows) {
        answer_each::<true>(fs, rows, files, offsets, sizes, answers);
    } else {
        answer_each::<false>(fs, rows, files, offsets, sizes, answers);
    }
    Ok(n)
}
