// Piece and file numbers, ranges of them, requests and slices: the records of types.rs,
// index_range.rs and file_storage.rs. It relies on nothing else.

// The number of a piece.
// Stays: document 01 asks for two tuple structs, this and the next.
#[derive(Clone, Copy)]
pub struct PieceIndex(pub i32);

// The number of a file. It lies as C lays it, since a `FileSlice` holds it.
#[repr(C)]
#[derive(Clone, Copy)]
pub struct FileIndex(pub i32);

// The pieces from `begin` up to, and without, `end`.
// Stays: document 01 asks for plain records, one for each type used, in place of the Rust's generic `IndexRange`.
#[derive(Drop)]
pub struct PieceIndexRange {
    pub begin: PieceIndex,
    pub end: PieceIndex,
}

// The files from `begin` up to, and without, `end`.
// Stays: document 01 asks for plain records, one for each type used.
#[derive(Drop)]
pub struct FileIndexRange {
    pub begin: FileIndex,
    pub end: FileIndex,
}

// The numbers from `begin` up to, and without, `end`: pieces counted within one file.
// Stays: document 01 asks for plain records, one for each type used.
#[derive(Drop)]
pub struct I32Range {
    pub begin: i32,
    pub end: i32,
}

// A range of bytes within a piece.
#[derive(Drop)]
pub struct PeerRequest {
    pub piece: PieceIndex,
    pub start: i32,
    pub length: i32,
}

// A window of a file. It lies as C lays it: a slice of them is lent through the C interface.
#[repr(C)]
#[derive(Drop)]
pub struct FileSlice {
    pub file_index: FileIndex,
    pub offset: i64,
    pub size: i64,
}
