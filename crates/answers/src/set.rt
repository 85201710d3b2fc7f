// Answers about the set as a whole. They rely on the refusals of `rules`, and on `types` for signed numbers.
ghost use Rattle.std.specs.Prelude.{◌≡◌};
ghost use Rattle.types.specs.Refusals.{outcome};
ghost use Rattle.answers.specs.Given.{num_files_given, total_size_given, size_on_disk_given};
ghost use Rattle.answers.specs.Given.{piece_length_given, v2_given};
ghost use Rattle.answers.specs.Given.{set_name_given, num_paths_given, path_at_given};

use rules::{Tests, ask_directory, ask_set, holds_dirs, holds_text};
use tables::{FileStorage, Span};
use types::Refusal;

// How many files the set has.
pub fn num_files(fs: FileStorage) -> Result<i32, Refusal>
    ensures { outcome result ≡ num_files_given fs }
{
    ask_set(fs)?;
    Ok(types::signed32(fs.num_files as u64))
}

// The sum of the sizes, pads included.
pub fn total_size(fs: FileStorage) -> Result<i64, Refusal>
    ensures { outcome result ≡ total_size_given fs }
{
    ask_set(fs)?;
    Ok(types::signed64(fs.total_size))
}

// The sum of the sizes without the pads.
pub fn size_on_disk(fs: FileStorage) -> Result<i64, Refusal>
    ensures { outcome result ≡ size_on_disk_given fs }
{
    ask_set(fs)?;
    Ok(types::signed64(fs.size_on_disk))
}

// The piece length.
pub fn piece_length(fs: FileStorage) -> Result<i32, Refusal>
    ensures { outcome result ≡ piece_length_given fs }
{
    ask_set(fs)?;
    Ok(types::signed32(fs.piece_length))
}

// Whether the set is v2.
pub fn v2(fs: FileStorage) -> Result<bool, Refusal>
    ensures { outcome result ≡ v2_given fs }
{
    ask_set(fs)?;
    Ok(fs.v2)
}

// Where the set's name stands in the text area.
pub fn name(fs: FileStorage, text: &[u8]) -> Result<Span, Refusal>
    ensures { outcome result ≡ set_name_given fs text.now }
{
    Tests::of_set(fs, holds_text(fs, text)).first_refusal()?;
    Ok(fs.name)
}

// How many directories the set has.
pub fn num_paths(fs: FileStorage) -> Result<i32, Refusal>
    ensures { outcome result ≡ num_paths_given fs }
{
    ask_set(fs)?;
    Ok(types::signed32(fs.num_paths as u64))
}

// Where the text of directory i stands in the text area.
// Stays: a record of all tables would ask for rows, which it doesn't read (docs/DECISIONS.md).
pub fn path_at(fs: FileStorage, dirs: &[u64], text: &[u8], i: usize) -> Result<Span, Refusal>
    ensures { outcome result ≡ path_at_given fs dirs.now text.now i }
{
    let held = holds_dirs(fs, dirs) && holds_text(fs, text);
    ask_directory(fs, i, held)?;
    Ok(tables::dir_at(dirs, i))
}
