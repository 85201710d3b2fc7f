// Whether a span lies in the used part of the text area. Relies on the spans of `tables`.
ghost use Rattle.std.specs.Prelude.{◌≡◌};
ghost use Rattle.texts.specs.Texts.{is_within};

use tables::Span;

// Whether a span lies within the first `used` bytes.
pub(crate) fn is_within(used: usize, s: Span) -> bool
    ensures { result ≡ is_within used s }
{
    s.at <= used && s.len <= used - s.at
}
