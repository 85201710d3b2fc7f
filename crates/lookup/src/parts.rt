// Tests on parts of paths: a directory that covers a path, a join compared part by part, and a name at a path's end.
// They rely on `lists`, `path` and the laws of proofs/Paths.antt.
ghost use Rattle.std.specs.Prelude.{◌≡◌};
ghost use Rattle.lists.specs.Lists.{equal};
ghost use Rattle.path.specs.Join.{appended};
ghost use Rattle.lookup.specs.Lookup.{covers, ends_with};

// Whether p is the directory d, or stands before one of its separators.
#[tactic(auto, using(crate::proofs::Paths::covers_starts))]
pub(crate) fn is_covered(d: &[u8], p: &[u8]) -> bool
    ensures { result ≡ covers d.now p.now }
{
    d.starts_with(p) && (d.len() == p.len() || d[p.len()] == b'/')
}

// Whether a directory and a name joined are p: compared part by part, the name first.
pub(crate) fn joins_to(d: &[u8], name: &[u8], p: &[u8]) -> bool
    ensures { result ≡ equal (appended d.now name.now) p.now }
{
    let (kept, separator) = path::join_prefix(d, name);
    let Some(front) = p.strip_suffix(name) else {
        return false;
    };
    let Some(branch) = front.strip_suffix(separator) else {
        return false;
    };
    lists::same(kept, branch)
}

// Whether p ends with n. It goes from the last byte to the first, since names of one directory mostly differ near their
// ends.
// Stays: std's `ends_with` goes from the first byte on. Tried, cleanings of 100, 1,000 and 10,000 links take 2.8, 53
// and 3,413 ms by it, and so 2.4, 44 and 2,789. At most 2.6, 48 and 3,422 are asked (docs/BENCHMARKS.md, the bar).
pub(crate) fn ends_with(n: &[u8], p: &[u8]) -> bool
    ensures { result ≡ ends_with n.now p.now }
{
    n.len() <= p.len() && n.iter().rev().zip(p.iter().rev()).all(|(a, b)| a == b)
}
