// Four parts that compose a path, of which the first is kept: no later part drops it. Relies on the test of `path` for
// a part that stands alone.
ghost use Rattle.std.specs.Prelude.{◌≡◌, false};
ghost use Rattle.path.specs.Join.{is_alone};

// The parts, each appended to those before it; an absent part is empty.
#[derive(Clone, Copy)]
pub(crate) struct KeptParts<'a> {
    pub first: &'a [u8],
    pub second: &'a [u8],
    pub third: &'a [u8],
    pub last: &'a [u8],
    ghost kept: { is_alone first.now ≡ false },
}
