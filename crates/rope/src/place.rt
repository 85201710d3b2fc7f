// Where the bytes of a path stand in its frames. It relies on frame.rt, on bytes.rt for a single byte, and on the laws
// of proofs/Flat.antt and proofs/Standing.antt.
ghost use Rattle.std.specs.Prelude.{◌≡◌, ◌-◌, ◌<◌, ◌≤◌, ltb, length, get_or, drop};
ghost use Rattle.rope.specs.Rope.{texts_of, unused, place_in, held, held_to, Stands};

use crate::frame::{Path, is_in, tail_in};

// A place in a path: the number of frames that are left there, and of their bytes that are passed.
// Stays: k counts frames, and 0 of them are left at the path's end; a reader stands there too, and before all frames,
// where no frame's number says where it stands. `seek` is public and gives a place for every byte's number, also past
// the end: as an `Option` it would fail there, and no longer say how far past the end that is.
#[derive(Clone, Copy)]
pub struct Place {
    pub k: u32,
    pub at: usize,
}

impl Path<'_> {
    // The place, in a frame that isn't passed whole, of what stands from another place on, and how many bytes are left
    // of that frame's text. Past the path's end no frame is left.
    #[tactic(auto, using(crate::proofs::Flat::walking))]
    pub(crate) fn seek_from(self, from: Place) -> (Place, usize)
        ensures k_value { drop result.0.at (held_to self.entry result.0.k)
            ≡ drop from.at (held_to self.entry from.k) }
        ensures k_le_depth { (result.0.k ≤ from.k)
            × (result.0.at ≤ from.at)
            × (result.0 ≡ place_in (texts_of self.entry.lent) self.entry.frames.now from.k from.at) }
        ensures in_frame { Stands self.entry result.0 }
        ensures left { 0 < result.0.k
            → result.1 ≡ length (unused (texts_of self.entry.lent) self.entry.frames.now (result.0.k - 1)) }
    {
        let mut at = from.at;
        for k in (0..from.k).rev() {
            let n = self.text_left(k);
            let t = tail_in(self.frames, k);
            if is_in(at, n, t) {
                return (Place { k: k + 1, at }, n);
            }
            at = at - n - t;
        }
        (Place { k: 0, at }, 0)
    }

    // The place of byte j. What stands from there on is what stands from byte j on.
    pub fn seek(self, j: usize) -> Place
        ensures k_value { drop result.at (held_to self.entry result.k) ≡ drop j (held self.entry) }
        ensures k_le_depth { (result.k ≤ self.entry.depth)
            × (result.at ≤ j)
            × (result
            ≡ place_in (texts_of self.entry.lent) self.entry.frames.now self.entry.depth j) }
        ensures in_frame { Stands self.entry result }
    {
        let from = Place {
            k: self.depth,
            at: j,
        };
        self.seek_from(from).0
    }

    // Whether the path has a byte j: a test and no sum, which could overflow.
    #[tactic(auto, using(crate::proofs::Standing::has_is))]
    pub fn has_byte(self, j: usize) -> bool
        ensures { result ≡ ltb j (length (held self.entry)) }
    {
        self.seek(j).k != 0
    }

    // Byte j of the path, 0 past its end.
    pub fn byte(self, j: usize) -> u8
        ensures { result ≡ get_or (held self.entry) j 0 }
    {
        self.bytes_from(j).next().unwrap_or(0)
    }
}
