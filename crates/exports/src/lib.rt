// What the C interface does, for benchmarks and other languages; the static library `exports_c` has its functions under
// the same names. A set's record is twelve lent words and a root 32 lent bytes, arrays with their sizes in their types.
// A change returns 0 or document 01's number; questions.rt, slices.rt and paths.rt say what a question returns. An
// addition has 15 parameters and can't have fewer in C: each table and each text is a slice of its own. Relies on
// `storage`, `additions`, `trim`, `cleaning`, `tables`, `layout`, `files`, `blocks` and `mapping`, and for names and
// paths on `imports`, `hashes`, `renames` and `renamed`.
#![tactic(auto)]

ghost use Rattle.std.specs.Prelude.{◌≡◌, List, ℕ};
ghost use Rattle.types.specs.Refusals.{outcome};
ghost use Rattle.additions.specs.Addition.{optional_of};
ghost use Rattle.plan.specs.Outcomes.{add_stored};
ghost use Rattle.trim.specs.Removal.{trim_stored};
ghost use Rattle.exports.specs.State.{Exported, exported, storage_of, store_at, words_of, presence_of};
ghost use Rattle.exports.specs.State.{number_returned, state_after};

mod cleanings;
mod paths;
mod questions;
mod slices;

use additions::FileInfo;
pub use cleanings::niflathen_sanitize_symlinks;
pub use paths::{
    RenameState, niflathen_all_path_hashes, niflathen_file_path, niflathen_import_filenames,
};
pub use questions::{
    FileRequest, niflathen_file_index_at_offset, niflathen_map_block, niflathen_map_file,
    niflathen_map_files,
};
pub use slices::niflathen_map_block_slices;
use tables::{FileStorage, Presence, Sha256Hash, Span};
use types::Refusal;

// A set's record, as words.
// Stays: the C interface is these twelve words, and the clauses speak of them as a list. A reference to an array is a
// pointer alone, as one to a `#[repr(C)]` struct is, and the struct's clauses would be said anew of its fields.
pub type State = [u64; 12];

// A root.
// Stays: the C interface lends a root as an array of bytes.
pub type Root = [u8; 32];

// The record that a set's words hold.
// Stays: `State` says why a set comes as an array; neither type is this crate's, as `From` would need.
pub(crate) fn storage_at(state: &State) -> FileStorage
    ensures { result ≡ storage_of state.now }
{
    FileStorage {
        piece_length: state[0],
        v2: state[1] != 0,
        num_files: state[2] as usize,
        num_paths: state[3] as usize,
        num_symlinks: state[4] as usize,
        name: Span::from([state[6], state[7]]),
        text_len: state[8] as usize,
        total_size: state[9],
        size_on_disk: state[10],
        trimmed: state[11] != 0,
        indexed: state[5] != 0,
    }
}

// The words of a set's record.
// Stays: `State` says why a set comes as an array; neither type is this crate's, as `From` would need.
fn words_of(fs: FileStorage) -> State
    ensures { result ≡ words_of fs }
{
    [
        fs.piece_length,
        u64::from(fs.v2),
        fs.num_files as u64,
        fs.num_paths as u64,
        fs.num_symlinks as u64,
        u64::from(fs.indexed),
        fs.name.at as u64,
        fs.name.len as u64,
        fs.text_len as u64,
        fs.total_size,
        fs.size_on_disk,
        u64::from(fs.trimmed),
    ]
}

// Writes the record that an answer holds, and gives the number of its refusal, 0 for none.
// Stays: the C interface returns numbers.
pub(crate) fn put_answer(state: &mut State, answer: Result<FileStorage, Refusal>) -> u32
    ensures value { result ≡ number_returned (outcome answer) }
    ensures state_after { state.new ≡ state_after (outcome answer) state.old }
{
    match answer {
        Ok(fs) => {
            *state = words_of(fs);
            0
        }
        Err(e) => u32::from(e),
    }
}

// `storage::add_file`; `given` and `rooted` are 0 for none.
// Stays: the C interface fixes the parameters and the answer.
pub fn niflathen_add_file(
    state: &mut State,
    rows: &mut [u64],
    roots: &mut [u8],
    firsts: &mut [u16],
    dirs: &mut [u64],
    text: &mut [u8],
    given: u8,
    filename: &[u8],
    path: &[u8],
    file_size: i64,
    file_flags: u8,
    mtime: i64,
    symlink_path: &[u8],
    rooted: u8,
    root: &Root,
) -> u32
    ensures { ◌≡◌ {A = Exported}
        (record {
          number = result;
          state = state.new;
          rows = rows.new;
          roots = roots.new;
          firsts = firsts.new;
          dirs = dirs.new;
          text = text.new;
        })
        (exported state.old
        (add_stored
        (store_at state.old rows.old roots.old firsts.old
        dirs.old text.old)
        (record {
          given = optional_of (presence_of given) filename.now;
          path = path.now;
          size = file_size;
          flags = file_flags;
          time = mtime;
          link = symlink_path.now;
          root = optional_of (presence_of rooted) root.now;
        }))) }
{
    let bytes = *root;
    let file = FileInfo {
        given: Presence::from(given != 0),
        size: file_size,
        flags: file_flags,
        mtime,
        rooted: Presence::from(rooted != 0),
        root: Sha256Hash { bytes },
    };
    let answer = storage::add_file(
        storage_at(state),
        rows,
        roots,
        firsts,
        dirs,
        text,
        file,
        filename,
        path,
        symlink_path,
    );
    put_answer(state, answer)
}

// `trim::remove_tail_padding`, which is lent no table of first files and leaves it.
// Stays: the C interface fixes the parameters and the answer.
pub fn niflathen_remove_tail_padding(
    state: &mut State,
    rows: &mut [u64],
    roots: &mut [u8],
    dirs: &mut [u64],
    text: &mut [u8],
) -> u32
    ensures { (firsts : List ℕ) → ◌≡◌ {A = Exported}
        (record {
          number = result;
          state = state.new;
          rows = rows.new;
          roots = roots.new;
          firsts = firsts;
          dirs = dirs.new;
          text = text.new;
        })
        (exported state.old
        (trim_stored
        (store_at state.old rows.old roots.old firsts
        dirs.old text.old))) }
{
    let answer = trim::remove_tail_padding(storage_at(state), rows, roots, dirs, text);
    put_answer(state, answer)
}
