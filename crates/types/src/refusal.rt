// Document 01's refusals and their numbers. It relies on nothing else.
ghost use Rattle.std.specs.Prelude.{◌≡◌};
ghost use Rattle.types.specs.Refusals.{number_of};

// Why a call is refused, with its number in 01's table 'Refusals, by place'.
#[derive(Clone, Copy, PartialEq, Eq)]
pub enum Refusal {
    InvalidPieceLength = 1,
    NegativeSize = 2,
    FileTooLarge = 3,
    TorrentInvalidLength = 4,
    FilenameTooLong = 5,
    InvalidName = 6,
    MissingParentPath = 7,
    TorrentMissingPiecesRoot = 8,
    TorrentInconsistentFiles = 9,
    NoRoom = 10,
    NoSuchFile = 11,
    NoSuchPiece = 12,
    TooManyPieces = 13,
    OutOfRange = 14,
    NotASymlink = 15,
    NoTree = 16,
    ParseFailed = 17,
}

// 01's number of a refusal.
impl From<Refusal> for u32 {
    ghost from_gives = { λ refusal n. n ≡ number_of refusal };

    fn from(refusal: Refusal) -> u32 {
        refusal as u32
    }
}
