// What a question about a file's names decides first, and where the set's name lies, if it leads the file's path.
// Relies on `rules` for the refusals and on `tables` for the span.
ghost use Rattle.std.specs.Prelude.{◌≡◌, cond};
ghost use Rattle.types.specs.Refusals.{outcome};
ghost use Rattle.rules.specs.Questions.{file_answer};
ghost use Rattle.names.specs.Paths.{set_leads, names_held};

use tables::{FileStorage, LentSet, Row, Span};
use types::{FileIndex, Refusal};

// The number of the file that a question about its path is about, or why the question isn't answered.
pub fn file_of(set: LentSet<'_>, index: FileIndex) -> Result<usize, Refusal>
    ensures { outcome result
        ≡ file_answer set.entry.fs index.0
        (names_held set.entry.fs set.entry.lent.rows.now set.entry.lent.dirs.now set.entry.lent.text.now)
        (λ k. k) }
{
    rules::file_in(set.fs, index, rules::holds_set(set))
}

// Whether the set's name leads a file's path.
pub(crate) fn is_led(row: Row) -> bool
    ensures { result ≡ set_leads row }
{
    tables::is_inside(row.path_index) && !tables::is_outside(row.flags)
}

// The span of the set's name where it leads the file's path, else the span of no bytes at 0.
pub fn set_span(fs: FileStorage, row: Row) -> Span
    ensures { result ≡ cond (set_leads row) fs.name (record { at = 0; len = 0 }) }
{
    if is_led(row) { fs.name } else { Span::empty() }
}
