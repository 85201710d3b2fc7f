// The bytes of a path one after another. They rely on frame.rt, place.rt and the laws of proofs/Reading.antt.
ghost use Rattle.std.specs.Prelude.{◌≡◌, drop};
ghost use Rattle.std.specs.Iterator.{YieldsFirst, item_count};
ghost use Rattle.rope.specs.Rope.{held, bytes_left};

use crate::frame::Path;
use crate::place::Place;

// The bytes of a path from a place on. Each is read where it stands, and the next is sought from the place behind it.
#[derive(Drop)]
pub struct Bytes<'a> {
    path: Path<'a>,
    from: Place,
}

impl<'a> Path<'a> {
    // Its bytes from byte j on.
    pub fn bytes_from(self, j: usize) -> Bytes<'a>
        ensures { bytes_left result ≡ drop j (held self.entry) }
    {
        Bytes {
            path: self,
            from: Place {
                k: self.depth,
                at: j,
            },
        }
    }
}

impl Iterator for Bytes<'_> {
    type Item = u8;

    ghost next_gives = { YieldsFirst bytes_left };

    ghost remaining = { item_count bytes_left };

    #[tactic(auto, using(crate::proofs::Reading::next_byte))]
    fn next(&mut self) -> Option<u8> {
        let path = self.path;
        let (p, n) = path.seek_from(self.from);
        if p.k == 0 {
            return None;
        }
        let k = p.k - 1;
        if p.at < n {
            self.from = Place {
                k: p.k,
                at: p.at + 1,
            };
            return Some(path.unused_byte(k, p.at));
        }
        // The separator after the text is the frame's last byte.
        self.from = Place { k, at: 0 };
        Some(b'/')
    }
}
