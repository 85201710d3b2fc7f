// What is decided before an answer: document 01's refusals of a question, in its order. It relies on the tests of
// test.rt and on the laws of proofs/Deciding.antt.
ghost use Rattle.std.specs.Prelude.{◌≡◌, false, not, ◌&&◌, [], ◌∷◌};
ghost use Rattle.types.specs.Refusals.{outcome};
ghost use Rattle.rules.specs.Rules.{when, first_of};
ghost use Rattle.rules.specs.Results.{check_number};
ghost use Rattle.rules.specs.Bounds.{bad_length};
ghost use Rattle.rules.specs.Questions.{bad_piece_length, no_file, no_directory, many_pieces, no_piece};
ghost use Rattle.rules.specs.Questions.{short, few_entries, set_tests};
ghost use Rattle.rules.specs.Questions.{file_answer};

use crate::test::{are_held, has_many, is_bad_length, is_no_file, is_no_piece};
use tables::FileStorage;
use types::{FileIndex, PieceIndex, Refusal};

// The tests of a question, each named by what it finds; those that a question doesn't make are false. `no_file` also
// tells that the set has no directory of a number.
// Stays: each field is one test of document 01's, and none of them guards another.
#[derive(Clone, Copy, Default)]
pub struct Tests {
    pub bad_length: bool,
    pub no_file: bool,
    pub many: bool,
    pub no_piece: bool,
    pub bad_range: bool,
    pub no_tree: bool,
    pub no_room: bool,
}

impl Tests {
    // The tests that every question about a set makes; `held` says whether the tables that are lent are long enough.
    pub fn of_set(fs: FileStorage, held: bool) -> Tests
        ensures { result ≡ set_tests fs held }
    {
        Tests {
            bad_length: is_bad_length(fs.piece_length),
            no_room: !are_held(fs, held),
            ..Tests::default()
        }
    }

    // Those of a question about a piece.
    pub fn of_piece(fs: FileStorage, piece: PieceIndex, held: bool) -> Tests
        ensures { result ≡ record (set_tests fs held) {
          many = (many_pieces fs).test;
          no_piece = (no_piece fs piece.0).test;
        } }
    {
        Tests {
            many: has_many(fs),
            no_piece: is_no_piece(fs, piece),
            ..Tests::of_set(fs, held)
        }
    }

    // Those of a question about a file.
    pub fn of_file(fs: FileStorage, index: FileIndex, held: bool) -> Tests
        ensures { result ≡ record (set_tests fs held) { no_file = (no_file fs index.0).test } }
    {
        Tests {
            no_file: is_no_file(fs, index),
            ..Tests::of_set(fs, held)
        }
    }

    // The refusal of the first test that holds, in document 01's order.
    pub fn first_refusal(self) -> Result<(), Refusal>
        ensures { check_number result
            ≡ first_of
            (when self.bad_length 1 ∷
            when self.no_file 11 ∷
            when self.many 13 ∷
            when self.no_piece 12 ∷
            when self.bad_range 14 ∷
            when self.no_tree 16 ∷
            when self.no_room 10 ∷
            []) }
    {
        if self.bad_length {
            return Err(Refusal::InvalidPieceLength);
        }
        if self.no_file {
            return Err(Refusal::NoSuchFile);
        }
        if self.many {
            return Err(Refusal::TooManyPieces);
        }
        if self.no_piece {
            return Err(Refusal::NoSuchPiece);
        }
        if self.bad_range {
            return Err(Refusal::OutOfRange);
        }
        if self.no_tree {
            return Err(Refusal::NoTree);
        }
        if self.no_room {
            return Err(Refusal::NoRoom);
        }
        Ok(())
    }
}

// Decides a question about the set as a whole.
pub fn ask_set(fs: FileStorage) -> Result<(), Refusal>
    ensures { check_number result ≡ first_of (bad_piece_length fs ∷ short (few_entries fs) ∷ []) }
{
    Tests::of_set(fs, true).first_refusal()
}

// Decides a question about directory i.
pub fn ask_directory(fs: FileStorage, i: usize, held: bool) -> Result<(), Refusal>
    ensures { check_number result
        ≡ first_of (bad_piece_length fs ∷ no_directory fs i ∷ short (held && few_entries fs) ∷ []) }
{
    Tests {
        no_file: fs.num_paths <= i,
        ..Tests::of_set(fs, held)
    }
    .first_refusal()
}

// Decides a question about the set's pieces.
pub fn ask_pieces(fs: FileStorage) -> Result<(), Refusal>
    ensures { check_number result ≡ first_of (bad_piece_length fs ∷ many_pieces fs ∷ short (few_entries fs) ∷ []) }
{
    Tests {
        many: has_many(fs),
        ..Tests::of_set(fs, true)
    }
    .first_refusal()
}

// The number of the file that a question is about, or its refusal; `held` says whether the lent tables are long enough.
// Stays: `link_in` of `answers` makes one test more, between the two last ones here; its line says why that is no field
// of `Tests`.
pub fn file_in(fs: FileStorage, index: FileIndex, held: bool) -> Result<usize, Refusal>
    ensures { outcome result ≡ file_answer fs index.0 held (λ k. k) }
{
    Tests::of_file(fs, index, held).first_refusal()?;
    Ok(index.get())
}
