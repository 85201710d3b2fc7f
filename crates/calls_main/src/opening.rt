// `open`, `use` and `reset`: opening a set, turning to another, and forgetting all. Relies on `storage` and
// `script`, and on the modules for sets and their places.
ghost use Rattle.std.specs.Prelude.{◌≤◌};

use crate::cleanings::LARGE_STAGE;
use crate::places::{Counts, MAX_DIRS, MAX_FILES, MAX_NAMES, MAX_PIECES, MAX_RENAMES, MAX_TEXT};
use crate::sets::{Made, Place, Set, Work};
use questions::Lent;
use renames::ENTRY_WIDTH;
use tables::{DIR_WIDTH, ROOT_WIDTH, ROW_WIDTH};

// What a line says of one kind of room: the places that a word gives it, if one names it, and the most that it has.
#[derive(Clone, Copy)]
struct Room {
    named: Option<usize>,
    most: usize,
}

impl Room {
    // How many places it has: the most, where no word names it.
    fn places(self) -> usize {
        self.named.unwrap_or(self.most)
    }
}

// What a line says of each kind of room.
#[derive(Clone, Copy)]
struct Rooms {
    files: Room,
    pieces: Room,
    dirs: Room,
    text: Room,
    renames: Room,
    names: Room,
    output: Room,
    slices: Room,
    hashes: Room,
    marks: Room,
    sum: Room,
}

impl Rooms {
    // The rooms of a line, whose words after the length each name another kind.
    fn read(line: &[u8]) -> Option<Rooms> {
        let rooms = Rooms {
            files: room_of(line, b"files=", MAX_FILES)?,
            pieces: room_of(line, b"pieces=", MAX_PIECES)?,
            dirs: room_of(line, b"dirs=", MAX_DIRS)?,
            text: room_of(line, b"text=", MAX_TEXT)?,
            renames: room_of(line, b"renames=", MAX_RENAMES)?,
            names: room_of(line, b"names=", MAX_NAMES)?,
            output: room_of(line, b"output=", 262144)?,
            slices: room_of(line, b"slices=", 1024)?,
            hashes: room_of(line, b"hashes=", 262400)?,
            marks: room_of(line, b"marks=", 256)?,
            sum: room_of(line, b"sum=", LARGE_STAGE)?,
        };
        if !script::word(line, rooms.count() + 2).is_empty() {
            return None;
        }
        Some(rooms)
    }

    // How many kinds a word names.
    fn count(self) -> usize
        ensures { result ≤ 11 }
    {
        let named = [
            self.files.named,
            self.pieces.named,
            self.dirs.named,
            self.text.named,
            self.renames.named,
            self.names.named,
            self.output.named,
            self.slices.named,
            self.hashes.named,
            self.marks.named,
            self.sum.named,
        ];
        named.iter().filter(|places| places.is_some()).count()
    }
}

// Makes the change of the sets that a line says, if it says one.
pub(crate) fn make(line: &[u8]) -> Option<Made> {
    if script::has_form(line, b"open LENGTH ROOM ..") {
        open(line)
    } else if script::has_form(line, b"use N") {
        turn_to(line)
    } else if script::has_form(line, b"reset") {
        Some(Made::Reset)
    } else {
        None
    }
}

// `open LENGTH` and a word for each kind of room that is named, in any order. Where a line names no room, a set has the
// most that it can have, but no table of first files.
fn open(line: &[u8]) -> Option<Made> {
    let piece_length = script::to_i32(script::word(line, 1))?;
    let rooms = Rooms::read(line)?;
    let res = if rooms.pieces.named.is_some() {
        storage::open_indexed(piece_length)
    } else {
        storage::open(piece_length)
    };
    let files = rooms.files.places();
    let counts = Counts {
        rows: files.saturating_mul(ROW_WIDTH),
        roots: files.saturating_mul(ROOT_WIDTH),
        firsts: rooms.pieces.places(),
        dirs: rooms.dirs.places().saturating_mul(DIR_WIDTH),
        text: rooms.text.places(),
        entries: rooms.renames.places().saturating_mul(ENTRY_WIDTH),
        area: rooms.names.places(),
    };
    let lent = Lent {
        output: rooms.output.places(),
        slices: rooms.slices.places(),
        hashes: rooms.hashes.places(),
    };
    let work = Work {
        marks: rooms.marks.places(),
        sum: rooms.sum.places(),
    };
    Some(Made::from(res.map(|fs| Set::opened(counts, lent, work, fs))))
}

// A kind of room by its name, with `=` after it. Eleven words may name room, each another kind (`Rooms::read`). It is
// out of form where it is more than the program has.
fn room_of(line: &[u8], name: &[u8], most: usize) -> Option<Room> {
    let named = (2..13).find_map(|number| script::word(line, number).strip_prefix(name));
    let Some(digits) = named else {
        return Some(Room { named: None, most });
    };
    let places = script::to_u64(digits)? as usize;
    (places <= most).then_some(Room {
        named: Some(places),
        most,
    })
}

// `use N`.
fn turn_to(line: &[u8]) -> Option<Made> {
    Some(Made::Use(Place::read(line, 1)?))
}
