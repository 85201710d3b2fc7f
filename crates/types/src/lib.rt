// The index types, ranges, requests and slices of types.rs, index_range.rs and file_storage.rs, and
// document 01's refusals, and the ways from signed numbers to unsigned ones and back. This crate relies
// on the kit only.
#![tactic(auto)]

mod index;
mod refusal;
mod signed;

pub use index::{
    FileIndex, FileIndexRange, FileSlice, I32Range, PeerRequest, PieceIndex, PieceIndexRange,
};
pub use refusal::Refusal;
pub use signed::{clamped, signed32, signed64, unzigzag64, zigzag64};
