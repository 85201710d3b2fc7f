// The piece that a question is about, once no refusal is due. It relies on `rules` for the number of pieces, and on
// what is known of a set that has few.
ghost use Rattle.std.specs.Prelude.{◌≡◌, ◌≤◌};
ghost use Rattle.layout.specs.Pieces.{start_of, piece_size};
ghost use Rattle.layout.specs.private.Deciding.{FewPieces};

use rules::count_pieces;
use tables::FileStorage;

// Piece p of a set, which has few pieces.
#[derive(Clone, Copy)]
pub(crate) struct AskedPiece {
    pub fs: FileStorage,
    pub p: u32,
    ghost few: { FewPieces fs },
}

impl AskedPiece {
    // Where it begins.
    pub(crate) fn start(self) -> u64
        ensures { result ≡ start_of self.fs self.p }
    {
        u64::from(self.p) * self.fs.piece_length
    }

    // Its size: the piece length, but for the last.
    #[tactic(auto, using(crate::proofs::Sizes::size_le))]
    pub(crate) fn size(self) -> u64
        ensures value { result ≡ piece_size self.fs self.p }
        ensures low { result ≤ 2147483647 }
    {
        if u64::from(self.p) + 1 == count_pieces(self.fs) {
            return self.fs.total_size.saturating_sub(self.start());
        }
        self.fs.piece_length
    }
}
