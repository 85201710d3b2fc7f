// Questions on a set as a whole. Relies on `answers` and `layout`, on `script` and on `replies`.
use crate::answer::Question;
use std::io;

// Answers a line that has one of this module's forms.
pub(crate) fn answer(question: Question<'_>) -> Option<io::Result<()>> {
    on_pieces(question).or_else(|| on_files(question))
}

// Answers a question on pieces and ranges.
fn on_pieces(question: Question<'_>) -> Option<io::Result<()>> {
    let Question { out, line, set } = question;
    let fs = set.fs;
    let written = if script::has_form(line, b"piece_length") {
        replies::answer(out, answers::piece_length(fs))
    } else if script::has_form(line, b"num_pieces") {
        replies::answer(out, layout::num_pieces(fs))
    } else if script::has_form(line, b"last_piece") {
        replies::answer(out, layout::last_piece(fs))
    } else if script::has_form(line, b"piece_range") {
        replies::answer(out, layout::piece_range(fs))
    } else if script::has_form(line, b"file_range") {
        replies::answer(out, layout::file_range(fs))
    } else if script::has_form(line, b"blocks_per_piece") {
        replies::answer(out, layout::blocks_per_piece(fs))
    } else if script::has_form(line, b"v2") {
        replies::answer(out, answers::v2(fs))
    } else if script::has_form(line, b"first_files") {
        replies::first_files(out, fs, set.firsts)
    } else {
        return None;
    };
    Some(written)
}

// Answers a question on files, directories and text.
fn on_files(question: Question<'_>) -> Option<io::Result<()>> {
    let Question { out, line, set } = question;
    let fs = set.fs;
    let text = set.text;
    let written = if script::has_form(line, b"name") {
        replies::text(out, answers::name(fs, text), text)
    } else if script::has_form(line, b"num_files") {
        replies::answer(out, answers::num_files(fs))
    } else if script::has_form(line, b"total_size") {
        replies::answer(out, answers::total_size(fs))
    } else if script::has_form(line, b"size_on_disk") {
        replies::answer(out, answers::size_on_disk(fs))
    } else if script::has_form(line, b"text_bytes") {
        replies::value(out, fs.text_len)
    } else if script::has_form(line, b"dirs") {
        replies::directories(out, fs, set.dirs, text)
    } else {
        return None;
    };
    Some(written)
}
