// Where a file's name lies. It relies on `tables` for spans.
use tables::Span;

// The span of a file's name in the set's text area, or in that of the renames.
#[derive(Clone, Copy)]
pub enum FileName {
    InSet(Span),
    InRenames(Span),
}
