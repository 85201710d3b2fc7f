// Spans of the text area: what they read, where they lie once another is removed, and the removal; and the span of a
// path's leaf in the path. Relies on `lists` and `path`; the laws of spans for the crates above are in
// proofs/Spans.antt.
ghost use Rattle.std.specs.Prelude.{◌≡◌, get_or};
ghost use Rattle.path.specs.Split.{rsplit_branch};
ghost use Rattle.tables.specs.Span.{text_at, lower, low, clip, slid, leaf_span};

// Where a text lies in the text area.
#[derive(Clone, Copy)]
pub struct Span {
    pub at: usize,
    pub len: usize,
}

impl Span {
    // A span of no bytes, at 0.
    pub fn empty() -> Span
        ensures { result ≡ record { at = 0; len = 0 } }
    {
        Span { at: 0, len: 0 }
    }
}

// The span that two words of a table hold.
impl From<[u64; 2]> for Span {
    ghost from_gives = { λ words span. span ≡ record { at = get_or words 0 0; len = get_or words 1 0 } };

    fn from(words: [u64; 2]) -> Span {
        Span {
            at: words[0] as usize,
            len: words[1] as usize,
        }
    }
}

// The text of a span.
pub fn text_at(text: &[u8], s: Span) -> &[u8]
    ensures { result.now ≡ text_at text.now s }
{
    lists::part(text, s.at, s.len)
}

// A path's branch, and the span of its leaf in the path: the two are found by one scan.
pub fn split_leaf(path: &[u8]) -> (&[u8], Span)
    ensures branch { result.0.now ≡ rsplit_branch path.now }
    ensures leaf { result.1 ≡ leaf_span path.now }
{
    let (branch, leaf) = path::rsplit_path(path);
    let len = leaf.len();
    let at = path::trimmed_length(path).saturating_sub(len);
    (branch, Span { at, len })
}

// The position of the byte at `p` once the bytes of the span `c` are removed.
pub fn lowered(c: Span, p: usize) -> usize
    ensures { result ≡ lower c p }
{
    p.saturating_sub(c.len.min(p.saturating_sub(c.at)))
}

// Where a span lies once the bytes of the span `c` are removed.
pub fn low_span(c: Span, s: Span) -> Span
    ensures { result ≡ low c s }
{
    Span {
        at: lowered(c, s.at),
        len: s.len,
    }
}

// The part of a span that lies within the first `used` bytes.
pub fn clipped(used: usize, s: Span) -> Span
    ensures { result ≡ clip used s }
{
    Span {
        at: s.at.min(used),
        len: s.len.min(used.saturating_sub(s.at)),
    }
}

// Removes the bytes of a span from the first `used` bytes: what follows it slides down.
// Stays: `used` may lie past the end of `text`, where no slice of the first `used` bytes can be lent.
#[tactic(auto, using(crate::proofs::Spans::slid_by))]
pub fn remove_text(text: &mut [u8], used: usize, c: Span)
    ensures { text.new ≡ slid c used text.old }
{
    let end = used.min(text.len());
    if end.saturating_sub(c.at) <= c.len {
        return;
    }
    text.copy_within(c.at + c.len..end, c.at);
}
