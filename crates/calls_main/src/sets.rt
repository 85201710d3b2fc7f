// The four sets of a script, and the one that calls speak of. They are handed on by value; the tables are not among
// them, and a set's counts say how much of its own it is lent. Relies on places.rt, on `tables`, `renames` and
// `questions` for the records, and on `script` and `lists`.
ghost use Rattle.std.specs.Prelude.{◌<◌};

use crate::places::{Counts, Tables};
use questions::{Asked, Lent};
use renames::{LentRenames, RenamedFiles};
use tables::FileStorage;
use types::Refusal;

// A set: how much it is lent of its tables, its record, that of its renames, and what its questions and its cleanings
// are lent.
#[derive(Clone, Copy)]
pub(crate) struct Set {
    pub counts: Counts,
    pub fs: FileStorage,
    pub held: RenamedFiles,
    pub lent: Lent,
    pub work: Work,
}

// A call that may change a set: its line, the set that is spoken of, and the tables of that set.
#[derive(Drop)]
pub(crate) struct Call<'a> {
    pub line: &'a [u8],
    pub set: Set,
    pub tables: &'a mut Tables,
}

// The work space of a cleaning: the marks, and the sum over the links for which it has room.
#[derive(Clone, Copy)]
pub(crate) struct Work {
    pub marks: usize,
    pub sum: usize,
}

// The place of a set: sets are numbered from 0 to 3.
#[derive(Clone, Copy)]
pub(crate) struct Place {
    pub number: usize,
    ghost within: { number < 4 },
}

impl Place {
    // The place that a word of a line names.
    pub(crate) fn read(line: &[u8], word: usize) -> Option<Place> {
        let number = script::to_u64(script::word(line, word))?;
        if 3 < number {
            return None;
        }
        Some(Place {
            number: number as usize,
        })
    }
}

// The sets that were opened, and the place of the one that is spoken of.
#[derive(Clone, Copy)]
pub(crate) struct Sets {
    pub at: Place,
    sets: [Option<Set>; 4],
}

// What came of a line that is a call: nothing is left to do; the call is refused; a cleaning left its work space
// otherwise than it must; the set that is spoken of is now this one; the set at a place is spoken of; or all sets are
// forgotten.
#[derive(Drop)]
pub(crate) enum Made {
    Answered,
    Refused(Refusal),
    Spoilt,
    Changed(Set),
    Use(Place),
    Reset,
}

// What came of a call that the library was asked for.
impl From<Result<Set, Refusal>> for Made {
    fn from(res: Result<Set, Refusal>) -> Made {
        match res {
            Ok(set) => Made::Changed(set),
            Err(refusal) => Made::Refused(refusal),
        }
    }
}

impl Set {
    // A set that is opened with so much of its tables, and what its questions and its cleanings are lent.
    // Stays: no other place makes a new record of renames; for this one, `renames` would have a public `Default`.
    pub(crate) fn opened(counts: Counts, lent: Lent, work: Work, fs: FileStorage) -> Set {
        Set {
            counts,
            fs,
            held: RenamedFiles {
                num_renames: 0,
                text_len: 0,
            },
            lent,
            work,
        }
    }
}

impl Sets {
    // No set was opened, and the first is spoken of.
    pub(crate) fn new() -> Sets {
        Sets {
            at: Place { number: 0 },
            sets: [None; 4],
        }
    }

    // The set that is spoken of.
    pub(crate) fn current(self) -> Option<Set> {
        self.set_at(self.at)
    }

    // The set at a place.
    fn set_at(self, place: Place) -> Option<Set> {
        self.sets[place.number]
    }

    // The set at a place and its parts of the tables, as a question is lent them.
    pub(crate) fn asked(self, place: Place, tables: &[Tables; 4]) -> Option<Asked<'_>> {
        let set = self.set_at(place)?;
        let own = &tables[place.number];
        let counts = set.counts;
        Some(Asked {
            fs: set.fs,
            rows: lists::part(&own.rows, 0, counts.rows),
            roots: lists::part(&own.roots, 0, counts.roots),
            firsts: lists::part(&own.firsts, 0, counts.firsts),
            dirs: lists::part(&own.dirs, 0, counts.dirs),
            text: lists::part(&own.text, 0, counts.text),
            names: LentRenames::new(
                set.held,
                lists::part(&own.entries, 0, counts.entries),
                lists::part(&own.area, 0, counts.area),
            ),
            lent: set.lent,
        })
    }

    // The sets with another one in place of the one that is spoken of.
    pub(crate) fn with(mut self, set: Set) -> Sets {
        self.sets[self.at.number] = Some(set);
        self
    }

    // The sets where another one is spoken of.
    pub(crate) fn turned_to(self, place: Place) -> Sets {
        Sets { at: place, ..self }
    }
}
