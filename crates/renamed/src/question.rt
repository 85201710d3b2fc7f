// A file's name through its rename, and whether its path is absolute. Relies on `renames` for the rename, on
// `answers` for the set's own answers and on the laws of proofs/Questions.antt.
ghost use Rattle.std.specs.Prelude.{◌≡◌};
ghost use Rattle.types.specs.Refusals.{outcome};
ghost use Rattle.renamed.specs.Results.{name_says};
ghost use Rattle.renamed.specs.Questions.{leaf_span, name_given, absolute_given};

use crate::result::FileName;
use renames::{LentRenames, RenameMode, RenamedFiles};
use tables::{FileStorage, Span};
use types::{FileIndex, Refusal};

// The span of the leaf of the name at `span`.
#[tactic(auto, using(path::proofs::Ends::trimmed_front, lists::proofs::Parts::part_length))]
fn leaf_of(rename_text: &[u8], span: Span) -> Span
    ensures { result ≡ leaf_span rename_text.now span }
{
    let (_, leaf) = tables::split_leaf(tables::text_at(rename_text, span));
    Span {
        at: span.at + leaf.at,
        ..leaf
    }
}

// Where a file's name lies: the leaf of its rename, or its own.
// Stays: it is public and is lent each table by itself (docs/DECISIONS.md, Forms 10), as the one below is.
pub fn file_name(
    fs: FileStorage,
    rows: &[u64],
    text: &[u8],
    renames: RenamedFiles,
    rename_entries: &[u64],
    rename_text: &[u8],
    index: FileIndex,
) -> Result<FileName, Refusal>
    ensures { name_says result ≡ name_given fs rows.now text.now renames rename_entries.now
        rename_text.now index.0 }
{
    let own = answers::file_name(fs, rows, text, index)?;
    let names = LentRenames::new(renames, rename_entries, rename_text);
    match names.find(index)? {
        Some(rename) => Ok(FileName::InRenames(leaf_of(rename_text, rename.name))),
        None => Ok(FileName::InSet(own)),
    }
}

// Whether a file's path is absolute: that of its rename, or its own.
pub fn file_absolute_path(
    fs: FileStorage,
    rows: &[u64],
    renames: RenamedFiles,
    rename_entries: &[u64],
    rename_text: &[u8],
    index: FileIndex,
) -> Result<bool, Refusal>
    ensures { outcome result ≡ absolute_given fs rows.now renames rename_entries.now
        rename_text.now index.0 }
{
    let own = answers::file_absolute_path(fs, rows, index)?;
    let names = LentRenames::new(renames, rename_entries, rename_text);
    Ok(
        names
            .find(index)?
            .map_or(own, |rename| rename.mode == RenameMode::AbsolutePath),
    )
}
