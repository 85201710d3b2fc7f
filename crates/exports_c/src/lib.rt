// The C interface: each function calls that of `exports` of the same name and states its clauses again. A C program
// links the archive, and passes a slice as a pointer and a length, and an array, whose size is in its type, as a
// pointer. It is a crate of its own since a crate is built as a library or as a static library, and no crate can depend
// on a static library. Relies on `exports`.
#![tactic(auto)]

ghost use Rattle.std.specs.Prelude.{◌≡◌, List, ℕ, pos};
ghost use Rattle.additions.specs.Addition.{optional_of};
ghost use Rattle.plan.specs.Outcomes.{add_stored};
ghost use Rattle.trim.specs.Removal.{trim_stored};
ghost use Rattle.layout.specs.Window.{window_for};
ghost use Rattle.layout.specs.Given.{file_at_offset_given};
ghost use Rattle.files.specs.Given.{file_mapped};
ghost use Rattle.files.specs.List.{files_mapped};
ghost use Rattle.blocks.specs.Block.{map_block};
ghost use Rattle.mapping.specs.Table.{block_mapped};
ghost use Rattle.lookup.specs.Lookup.{lent};
ghost use Rattle.cleaning.specs.Cleaning.{clean_stored};
ghost use Rattle.hashes.specs.Hashes.{all_path_hashes};
ghost use Rattle.imports.specs.Imports.{import_lent};
ghost use Rattle.renamed.specs.Questions.{path_into};
ghost use Rattle.exports.specs.State.{Exported, exported, storage_of, store_at, presence_of};
ghost use Rattle.exports.specs.Layout.{file_returned, request_returned};
ghost use Rattle.exports.specs.Layout.{BlockReturned, block_returned, ListReturned, list_returned};
ghost use Rattle.exports.specs.Layout.{SlicesReturned, slices_returned};
ghost use Rattle.exports.specs.Cleanings.{CleaningReturned, cleaning_returned};
ghost use Rattle.exports.specs.Paths.{renamed_files_of, ImportReturned, import_returned};
ghost use Rattle.exports.specs.Paths.{HashesReturned, hashes_returned, PathReturned, path_returned};

use exports::{FileRequest, RenameState, Root, State};
use types::FileSlice;

// `storage::add_file`; `given` and `rooted` are 0 for none.
// Stays: the C interface fixes the name, the parameters and the answer.
#[unsafe(no_mangle)]
pub extern "C" fn niflathen_add_file(
    state: &mut State,
    rows: &mut [u64],
    roots: &mut [u8],
    firsts: &mut [u16],
    dirs: &mut [u64],
    text: &mut [u8],
    given: u8,
    filename: &[u8],
    path: &[u8],
    file_size: i64,
    file_flags: u8,
    mtime: i64,
    symlink_path: &[u8],
    rooted: u8,
    root: &Root,
) -> u32
    ensures { ◌≡◌ {A = Exported}
        (record {
          number = result;
          state = state.new;
          rows = rows.new;
          roots = roots.new;
          firsts = firsts.new;
          dirs = dirs.new;
          text = text.new;
        })
        (exported state.old
        (add_stored
        (store_at state.old rows.old roots.old firsts.old
        dirs.old text.old)
        (record {
          given = optional_of (presence_of given) filename.now;
          path = path.now;
          size = file_size;
          flags = file_flags;
          time = mtime;
          link = symlink_path.now;
          root = optional_of (presence_of rooted) root.now;
        }))) }
{
    exports::niflathen_add_file(
        state,
        rows,
        roots,
        firsts,
        dirs,
        text,
        given,
        filename,
        path,
        file_size,
        file_flags,
        mtime,
        symlink_path,
        rooted,
        root,
    )
}

// `trim::remove_tail_padding`, which is lent no table of first files and leaves it.
// Stays: the C interface fixes the name, the parameters and the answer.
#[unsafe(no_mangle)]
pub extern "C" fn niflathen_remove_tail_padding(
    state: &mut State,
    rows: &mut [u64],
    roots: &mut [u8],
    dirs: &mut [u64],
    text: &mut [u8],
) -> u32
    ensures { (firsts : List ℕ) → ◌≡◌ {A = Exported}
        (record {
          number = result;
          state = state.new;
          rows = rows.new;
          roots = roots.new;
          firsts = firsts;
          dirs = dirs.new;
          text = text.new;
        })
        (exported state.old
        (trim_stored
        (store_at state.old rows.old roots.old firsts
        dirs.old text.old))) }
{
    exports::niflathen_remove_tail_padding(state, rows, roots, dirs, text)
}

// `cleaning::sanitize_symlinks`.
// Stays: the C interface fixes the name, the parameters and the answer.
#[unsafe(no_mangle)]
pub extern "C" fn niflathen_sanitize_symlinks(
    state: &mut State,
    rows: &mut [u64],
    dirs: &mut [u64],
    text: &mut [u8],
    marks: &mut [u8],
    scratch: &mut [u8],
    walk_path: &mut [u8],
) -> u32
    ensures { ◌≡◌ {A = CleaningReturned}
        (record {
          number = result;
          state = state.new;
          rows = rows.new;
          dirs = dirs.new;
          text = text.new;
          marks = marks.new;
          scratch = scratch.new;
          walk_path = walk_path.new;
        })
        (cleaning_returned state.old
        (clean_stored
        (lent (storage_of state.old) rows.old dirs.old text.old)
        marks.old scratch.old walk_path.old)) }
{
    exports::niflathen_sanitize_symlinks(state, rows, dirs, text, marks, scratch, walk_path)
}

// `blocks::map_block_core`: the number of slices, or minus the number of the refusal.
// Stays: the C interface fixes the name, the parameters and the answer.
#[unsafe(no_mangle)]
pub extern "C" fn niflathen_map_block(
    state: &State,
    rows: &[u64],
    firsts: &[u16],
    piece: i32,
    offset: i64,
    size: i64,
    out_file: &mut [u64],
    out_offset: &mut [u64],
    out_size: &mut [u64],
) -> i64
    ensures { ◌≡◌ {A = BlockReturned}
        (record {
          answer = result;
          file = out_file.new;
          offset = out_offset.new;
          size = out_size.new;
        })
        (block_returned
        (map_block (storage_of state.now) rows.now
        (window_for (storage_of state.now) firsts.now piece offset) piece offset size
        out_file.old out_offset.old out_size.old)) }
{
    exports::niflathen_map_block(
        state, rows, firsts, piece, offset, size, out_file, out_offset, out_size,
    )
}

// `layout::file_index_at_offset`: the file's number, or minus the number of the refusal.
// Stays: the C interface fixes the name, the parameters and the answer.
#[unsafe(no_mangle)]
pub extern "C" fn niflathen_file_index_at_offset(
    state: &State,
    rows: &[u64],
    firsts: &[u16],
    offset: i64,
) -> i64
    ensures { result ≡
        file_returned
        (file_at_offset_given (storage_of state.now) rows.now
        (window_for (storage_of state.now) firsts.now (pos 0) offset) offset) }
{
    exports::niflathen_file_index_at_offset(state, rows, firsts, offset)
}

// `files::map_file`: the request, or the number of the refusal. Arguments and answer go in registers.
// Stays: the C interface fixes the name, the parameters and the answer.
#[unsafe(no_mangle)]
pub extern "C" fn niflathen_map_file(
    state: &State,
    rows: &[u64],
    index: i32,
    offset: i64,
    size: i32,
) -> FileRequest
    ensures { result ≡
        request_returned (file_mapped (storage_of state.now) rows.now index offset size) }
{
    exports::niflathen_map_file(state, rows, index, offset, size)
}

// `files::map_files`: the number of questions, or minus the number of the refusal.
// Stays: the C interface fixes the name, the parameters and the answer.
#[unsafe(no_mangle)]
pub extern "C" fn niflathen_map_files(
    state: &State,
    rows: &[u64],
    files: &[i32],
    offsets: &[i64],
    sizes: &[i32],
    answers: &mut [u32],
) -> i64
    ensures { ◌≡◌ {A = ListReturned} (record { answer = result; answers = answers.new })
        (list_returned
        (files_mapped (storage_of state.now) rows.now files.now offsets.now
        sizes.now answers.old)) }
{
    exports::niflathen_map_files(state, rows, files, offsets, sizes, answers)
}

// `mapping::map_block`: the number of slices, or minus the number of the refusal.
// Stays: the C interface fixes the name, the parameters and the answer.
#[unsafe(no_mangle)]
pub extern "C" fn niflathen_map_block_slices(
    state: &State,
    rows: &[u64],
    firsts: &[u16],
    piece: i32,
    offset: i64,
    size: i64,
    out: &mut [FileSlice],
) -> i64
    ensures { ◌≡◌ {A = SlicesReturned} (record { answer = result; table = out.new })
        (slices_returned
        (block_mapped (storage_of state.now) rows.now
        (window_for (storage_of state.now) firsts.now piece offset)
        piece offset size out.old)) }
{
    exports::niflathen_map_block_slices(state, rows, firsts, piece, offset, size, out)
}

// `imports::import_filenames`, which takes 16 KiB of the caller's stack, and 1 MiB where the set has more than 1024
// files: 0, or the number of the refusal.
// Stays: the C interface fixes the name, the parameters and the answer.
#[unsafe(no_mangle)]
pub extern "C" fn niflathen_import_filenames(
    state: &State,
    renames: &mut RenameState,
    rename_entries: &mut [u64],
    rename_text: &mut [u8],
    numbers: &[i32],
    lengths: &[u64],
    names: &[u8],
) -> u32
    ensures { ◌≡◌ {A = ImportReturned}
        (record {
          number = result;
          renames = renames.new;
          entries = rename_entries.new;
          text = rename_text.new;
        })
        (import_returned renames.old
        (import_lent (storage_of state.now) (renamed_files_of renames.old)
        rename_entries.old rename_text.old numbers.now lengths.now names.now)) }
{
    exports::niflathen_import_filenames(
        state,
        renames,
        rename_entries,
        rename_text,
        numbers,
        lengths,
        names,
    )
}

// `hashes::all_path_hashes`: the number of hashes, or minus the number of the refusal.
// Stays: the C interface fixes the name, the parameters and the answer.
#[unsafe(no_mangle)]
pub extern "C" fn niflathen_all_path_hashes(
    state: &State,
    dirs: &[u64],
    text: &[u8],
    out: &mut [u32],
) -> i64
    ensures { ◌≡◌ {A = HashesReturned} (record { answer = result; table = out.new })
        (hashes_returned
        (all_path_hashes (storage_of state.now) dirs.now text.now out.old)) }
{
    exports::niflathen_all_path_hashes(state, dirs, text, out)
}

// `renamed::file_path`: the length of the path, or minus the number of the refusal.
// Stays: the C interface fixes the name, the parameters and the answer.
#[unsafe(no_mangle)]
pub extern "C" fn niflathen_file_path(
    state: &State,
    rows: &[u64],
    dirs: &[u64],
    text: &[u8],
    renames: &RenameState,
    rename_entries: &[u64],
    rename_text: &[u8],
    index: i32,
    save_path: &[u8],
    buf: &mut [u8],
) -> i64
    ensures { ◌≡◌ {A = PathReturned} (record { answer = result; buf = buf.new })
        (path_returned
        (path_into (storage_of state.now) rows.now dirs.now text.now (renamed_files_of renames.now)
        rename_entries.now rename_text.now index save_path.now buf.old)) }
{
    exports::niflathen_file_path(
        state,
        rows,
        dirs,
        text,
        renames,
        rename_entries,
        rename_text,
        index,
        save_path,
        buf,
    )
}
