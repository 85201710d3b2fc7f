// Names and paths by the C interface: an import of names, the hashes of all paths, and a file's path through renames.
// The record of a set's renames is two lent words, an array as that of the set is. Relies on `imports`, `hashes` and
// `renamed`.
ghost use Rattle.std.specs.Prelude.{◌≡◌};
ghost use Rattle.types.specs.Refusals.{outcome};
ghost use Rattle.hashes.specs.Hashes.{all_path_hashes};
ghost use Rattle.imports.specs.Imports.{import_lent};
ghost use Rattle.renamed.specs.Questions.{path_into};
ghost use Rattle.exports.specs.State.{storage_of, number_returned};
ghost use Rattle.exports.specs.Paths.{renamed_files_of, rename_state_after, ImportReturned, import_returned};
ghost use Rattle.exports.specs.Paths.{HashesReturned, hashes_returned, PathReturned, path_returned};

use crate::questions::count_returned;
use crate::{State, storage_at};
use renames::RenamedFiles;
use types::{FileIndex, Refusal};

// The record of a set's renames, as words: how many there are, and the bytes of their texts.
// Stays: as `State`.
pub type RenameState = [u64; 2];

// The record that the words hold.
// Stays: neither type is this crate's, as `From` would need.
fn renamed_files_at(words: &RenameState) -> RenamedFiles
    ensures { result ≡ renamed_files_of words.now }
{
    RenamedFiles {
        num_renames: words[0] as usize,
        text_len: words[1] as usize,
    }
}

// Writes the record that an answer holds, and gives the number of its refusal, 0 for none.
// Stays: the C interface returns numbers.
fn put_renames(words: &mut RenameState, answer: Result<RenamedFiles, Refusal>) -> u32
    ensures value { result ≡ number_returned (outcome answer) }
    ensures words_after { words.new ≡ rename_state_after (outcome answer) words.old }
{
    match answer {
        Ok(renames) => {
            *words = [renames.num_renames as u64, renames.text_len as u64];
            0
        }
        Err(e) => u32::from(e),
    }
}

// `imports::import_filenames`, which takes 16 KiB of the caller's stack, and 1 MiB where the set has more than 1024
// files: 0, or the number of the refusal.
// Stays: the C interface fixes the parameters and the answer.
pub fn niflathen_import_filenames(
    state: &State,
    renames: &mut RenameState,
    rename_entries: &mut [u64],
    rename_text: &mut [u8],
    numbers: &[i32],
    lengths: &[u64],
    names: &[u8],
) -> u32
    ensures { ◌≡◌ {A = ImportReturned}
        (record {
          number = result;
          renames = renames.new;
          entries = rename_entries.new;
          text = rename_text.new;
        })
        (import_returned renames.old
        (import_lent (storage_of state.now) (renamed_files_of renames.old)
        rename_entries.old rename_text.old numbers.now lengths.now names.now)) }
{
    let answer = imports::import_filenames(
        storage_at(state),
        renamed_files_at(renames),
        rename_entries,
        rename_text,
        numbers,
        lengths,
        names,
    );
    put_renames(renames, answer)
}

// `hashes::all_path_hashes`: the number of hashes, or minus the number of the refusal.
// Stays: the C interface fixes the parameters and the answer.
pub fn niflathen_all_path_hashes(state: &State, dirs: &[u64], text: &[u8], out: &mut [u32]) -> i64
    ensures { ◌≡◌ {A = HashesReturned} (record { answer = result; table = out.new })
        (hashes_returned
        (all_path_hashes (storage_of state.now) dirs.now text.now out.old)) }
{
    count_returned(hashes::all_path_hashes(storage_at(state), dirs, text, out))
}

// `renamed::file_path`: the length of the path, or minus the number of the refusal.
// Stays: the C interface fixes the parameters and the answer.
pub fn niflathen_file_path(
    state: &State,
    rows: &[u64],
    dirs: &[u64],
    text: &[u8],
    renames: &RenameState,
    rename_entries: &[u64],
    rename_text: &[u8],
    index: i32,
    save_path: &[u8],
    buf: &mut [u8],
) -> i64
    ensures { ◌≡◌ {A = PathReturned} (record { answer = result; buf = buf.new })
        (path_returned
        (path_into (storage_of state.now) rows.now dirs.now text.now (renamed_files_of renames.now)
        rename_entries.now rename_text.now index save_path.now buf.old)) }
{
    count_returned(renamed::file_path(
        storage_at(state),
        rows,
        dirs,
        text,
        renamed_files_at(renames),
        rename_entries,
        rename_text,
        FileIndex(index),
        save_path,
        buf,
    ))
}
