// A line's answer. Each module answers the lines that have one of its forms: first those that open a set or turn to
// another, then the changes of the set that is spoken of; what is none of these is asked of `questions`. A new call is
// a form in one module, and what answers it beside. Relies on the modules of the calls.
use crate::input::Buffer;
use crate::places::Tables;
use crate::sets::{Call, Made, Sets};
use crate::{asking, changes, opening};
use std::io;
use std::io::Stdout;

// Answers the line of a length, of which as many bytes stand in its buffer as that has places; a change of the sets
// is left to `noted`.
// Stays: a line may be longer than its buffer, and `length` is the line's.
pub(crate) fn answer(
    out: Stdout,
    line: &Buffer,
    length: usize,
    all: Sets,
    tables: &mut [Tables; 4],
) -> io::Result<Made> {
    let content = lists::part(line, 0, length);
    if content.first() == Some(&b'#') {
        return Ok(Made::Answered);
    }
    if line.len() < length {
        replies::bad_call(out)?;
        return Ok(Made::Answered);
    }
    if script::word(content, 0).is_empty() {
        return Ok(Made::Answered);
    }
    if let Some(made) = opening::make(content) {
        return Ok(made);
    }
    if let Some(set) = all.current() {
        let call = Call {
            line: content,
            set,
            tables: &mut tables[all.at.number],
        };
        if let Some(made) = changes::make(call) {
            return Ok(made);
        }
    }
    asking::answer(out, content, all, tables)?;
    Ok(Made::Answered)
}

// Answers a change of the sets, and gives the sets after it.
pub(crate) fn noted(out: Stdout, made: Made, before: Sets) -> io::Result<Sets> {
    let after = match made {
        Made::Answered => return Ok(before),
        Made::Refused(refusal) => {
            replies::refused(out, refusal)?;
            return Ok(before);
        }
        Made::Spoilt => {
            replies::value(out, replies::ByteString(b"spoilt"))?;
            return Ok(before);
        }
        Made::Changed(set) => before.with(set),
        Made::Use(place) => before.turned_to(place),
        Made::Reset => Sets::new(),
    };
    replies::done(out)?;
    Ok(after)
}
