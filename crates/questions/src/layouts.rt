// Questions on the layout of a set; those that search for a file begin by the set's table of first files. Relies on
// `layout`, `files`, `mapping` and `blocks`, on `script`, on `lists` and on `replies`.
use crate::answer::Question;
use crate::{first, words};
use std::{array, io};
use tables::Sha256Hash;
use types::{FileIndex, FileSlice, PieceIndex};

// The places of a table of slices, more than a set has files.
const SLICES: usize = 1024;

// Answers a line that has one of this module's forms.
pub(crate) fn answer(question: Question<'_>) -> Option<io::Result<()>> {
    let line = question.line;
    if script::has_form(line, b"file_index_at_offset O") {
        at_offset(question)
    } else if script::has_form(line, b"file_index_for_root ROOT") {
        for_root(question)
    } else if script::has_form(line, b"map_file I OFFSET SIZE") {
        map_file(question)
    } else if script::has_form(line, b"map_block PIECE OFFSET SIZE") {
        map_block(question)
    } else if script::has_form(line, b"map_block_core PIECE OFFSET SIZE") {
        map_block_core(question)
    } else {
        on_number(question)
    }
}

// Answers a question on a file or a piece by its number.
fn on_number(question: Question<'_>) -> Option<io::Result<()>> {
    let n = script::to_i32(script::word(question.line, 1))?;
    range_of(question, FileIndex(n))
        .or_else(|| tree_of(question, FileIndex(n)))
        .or_else(|| piece_of(question, PieceIndex(n)))
}

// Answers a question on the pieces of a file.
fn range_of(question: Question<'_>, index: FileIndex) -> Option<io::Result<()>> {
    let Question { out, line, set } = question;
    let fs = set.fs;
    let rows = set.rows;
    let written = if script::has_form(line, b"exclusive I") {
        replies::answer(out, files::file_piece_range_exclusive(fs, rows, index))
    } else if script::has_form(line, b"inclusive I") {
        replies::answer(out, files::file_piece_range_inclusive(fs, rows, index))
    } else if script::has_form(line, b"file_piece_range I") {
        replies::answer(out, files::file_piece_range(fs, rows, index))
    } else if script::has_form(line, b"piece_index_at_file I") {
        replies::answer(out, files::piece_index_at_file(fs, rows, index))
    } else if script::has_form(line, b"last_piece_index_at_file I") {
        replies::answer(out, files::last_piece_index_at_file(fs, rows, index))
    } else {
        return None;
    };
    Some(written)
}

// Answers a question on the tree of a file.
fn tree_of(question: Question<'_>, index: FileIndex) -> Option<io::Result<()>> {
    let Question { out, line, set } = question;
    let fs = set.fs;
    let rows = set.rows;
    let written = if script::has_form(line, b"file_num_pieces I") {
        replies::answer(out, files::file_num_pieces(fs, rows, index))
    } else if script::has_form(line, b"file_num_blocks I") {
        replies::answer(out, files::file_num_blocks(fs, rows, index))
    } else if script::has_form(line, b"file_first_piece_node I") {
        replies::answer(out, files::file_first_piece_node(fs, rows, index))
    } else if script::has_form(line, b"file_first_block_node I") {
        replies::answer(out, files::file_first_block_node(fs, rows, index))
    } else {
        return None;
    };
    Some(written)
}

// Answers a question on a piece.
fn piece_of(question: Question<'_>, piece: PieceIndex) -> Option<io::Result<()>> {
    let Question { out, line, set } = question;
    let fs = set.fs;
    let rows = set.rows;
    let window = layout::window_for(fs, set.firsts, piece, 0);
    let written = if script::has_form(line, b"piece_size P") {
        replies::answer(out, layout::piece_size(fs, piece))
    } else if script::has_form(line, b"piece_size2 P") {
        replies::answer(out, layout::piece_size2(fs, rows, window, piece))
    } else if script::has_form(line, b"blocks_in_piece2 P") {
        replies::answer(out, layout::blocks_in_piece2(fs, rows, window, piece))
    } else if script::has_form(line, b"file_index_at_piece P") {
        replies::answer(out, layout::file_index_at_piece(fs, rows, window, piece))
    } else if script::has_form(line, b"last_file_index_at_piece P") {
        replies::answer(
            out,
            layout::last_file_index_at_piece(fs, rows, window, piece),
        )
    } else {
        return None;
    };
    Some(written)
}

// `file_index_at_offset O`.
fn at_offset(question: Question<'_>) -> Option<io::Result<()>> {
    let Question { out, line, set } = question;
    let offset = script::to_i64(script::word(line, 1))?;
    let window = layout::window_for(set.fs, set.firsts, PieceIndex(0), offset);
    let index = layout::file_index_at_offset(set.fs, set.rows, window, offset);
    Some(replies::answer(out, index))
}

// `file_index_for_root ROOT`.
fn for_root(question: Question<'_>) -> Option<io::Result<()>> {
    let Question { out, line, set } = question;
    let bytes = script::to_root(script::word(line, 1))?;
    let index = files::file_index_for_root(set.fs, set.rows, set.roots, Sha256Hash { bytes });
    Some(replies::answer(out, index))
}

// `map_file I OFFSET SIZE`.
fn map_file(question: Question<'_>) -> Option<io::Result<()>> {
    let Question { out, line, set } = question;
    let index = words::file(line)?;
    let offset = script::to_i64(script::word(line, 2))?;
    let size = script::to_i32(script::word(line, 3))?;
    let request = files::map_file(set.fs, set.rows, index, offset, size);
    Some(replies::answer(out, request))
}

// A block of a piece, as a line names it.
#[derive(Clone, Copy)]
struct Block {
    piece: PieceIndex,
    offset: i64,
    size: i64,
}

impl Block {
    // The block that the first three words name.
    fn read(line: &[u8]) -> Option<Block> {
        Some(Block {
            piece: PieceIndex(script::to_i32(script::word(line, 1))?),
            offset: script::to_i64(script::word(line, 2))?,
            size: script::to_i64(script::word(line, 3))?,
        })
    }
}

// `map_block PIECE OFFSET SIZE`.
fn map_block(question: Question<'_>) -> Option<io::Result<()>> {
    let Question { out, line, set } = question;
    let block = Block::read(line)?;
    let mut slices: [FileSlice; SLICES] = array::from_fn(|_| FileSlice {
        file_index: FileIndex::none(),
        offset: 0,
        size: 0,
    });
    let res = mapping::map_block(
        set.fs,
        set.rows,
        layout::window_for(set.fs, set.firsts, block.piece, block.offset),
        block.piece,
        block.offset,
        block.size,
        first(&mut slices, set.lent.slices),
    );
    Some(replies::slices(out, res, &slices))
}

// `map_block_core PIECE OFFSET SIZE`: the slices of the three columns that the core fills.
fn map_block_core(question: Question<'_>) -> Option<io::Result<()>> {
    let Question { out, line, set } = question;
    let block = Block::read(line)?;
    let mut files = [0u64; SLICES];
    let mut offsets = [0u64; SLICES];
    let mut sizes = [0u64; SLICES];
    let res = blocks::map_block_core(
        set.fs,
        set.rows,
        layout::window_for(set.fs, set.firsts, block.piece, block.offset),
        block.piece,
        block.offset,
        block.size,
        first(&mut files, set.lent.slices),
        first(&mut offsets, set.lent.slices),
        first(&mut sizes, set.lent.slices),
    );
    // A number that a record can't hold becomes −1, which no slice has.
    let slices: [FileSlice; SLICES] = array::from_fn(|n| FileSlice {
        file_index: FileIndex(i32::try_from(lists::item_or(&files, n, 0)).unwrap_or(-1)),
        offset: i64::try_from(lists::item_or(&offsets, n, 0)).unwrap_or(-1),
        size: i64::try_from(lists::item_or(&sizes, n, 0)).unwrap_or(-1),
    });
    Some(replies::slices(out, res, &slices))
}
