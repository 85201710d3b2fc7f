// Where the parts of a path end. It relies on `rope` and the laws of proofs/Cuts.antt.
ghost use Rattle.std.specs.Prelude.{◌≡◌, cond, ◌^◌, ◌≤◌, ◌<◌, length};
ghost use Rattle.path.specs.Split.{is_complete};
ghost use Rattle.links.specs.Clean.{part_end};
ghost use Rattle.rope.specs.Rope.{held};

use rope::Path;

// How many separators a path begins with that a split skips: 1 or 0.
// Stays: path's `position_in` and `first_separator` do this on a slice. A path in frames stands nowhere as one, here
// and below.
fn skipped_in(path: Path<'_>) -> usize
    ensures { result ≡ cond (is_complete (held path.entry)) 1 0 }
{
    usize::from(path.byte(0) == b'/')
}

// Where the part of the path ends that goes on at `pos`.
pub(crate) fn cut_in(path: Path<'_>, pos: usize) -> usize
    requires { (pos ≤ length (held path)) × (length (held path) < 2 ^ 64) }
    ensures { result ≡ part_end (held path.entry) pos }
{
    let c = skipped_in(path);
    let begin = pos.saturating_sub(c);
    begin
        + path
            .bytes_from(c + begin)
            .take_while(|b| *b != b'/')
            .count()
}
