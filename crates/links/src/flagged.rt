// The flagged links of a set one after another, each with the number of its mark. They rely on `lookup`.
ghost use Rattle.std.specs.Prelude.{◌≡◌, ◌-◌, ◌≤◌};
ghost use Rattle.std.specs.Iterator.{at_most};
ghost use Rattle.links.specs.Flagged.{Passes};

use lookup::is_link;
use tables::{FileStorage, LentSet};

// The flagged links from file i on, of which the first has mark k.
// Stays: `filter` and `zip` over the numbers of files would do, but no function can hand such a chain out, since Rattle
// has no `impl Trait` as a result. `num_files` may pass the table's end, where no slice of so many rows can be lent.
#[derive(Drop)]
pub struct Links<'a> {
    rows: &'a [u64],
    num_files: usize,
    i: usize,
    k: usize,
}

impl<'a> Links<'a> {
    // All of a set.
    pub fn all(the_set: LentSet<'a>) -> Links<'a>
        ensures { result
            ≡ record { rows = the_set.entry.lent.rows; num_files = the_set.entry.fs.num_files; i = 0; k = 0 } }
    {
        Links::starting_at(the_set.fs, the_set.lent.rows, 0, 0)
    }

    // Those from file i on, of which the first has mark k.
    pub(crate) fn starting_at(fs: FileStorage, rows: &'a [u64], i: usize, k: usize) -> Links<'a>
        ensures { result ≡ record { rows = rows.entry; num_files = fs.num_files; i = i; k = k } }
    {
        Links {
            rows,
            num_files: fs.num_files,
            i,
            k,
        }
    }
}

// Each is given as the number of its mark and that of its file.
impl Iterator for Links<'_> {
    type Item = (usize, usize);

    ghost can_next = { λ s. s.k ≤ s.i };

    ghost next_gives = { Passes };

    ghost remaining = { λ s. at_most (s.num_files - s.i) };

    fn next(&mut self) -> Option<(usize, usize)> {
        let i = (self.i..self.num_files).find(|i| is_link(self.rows, *i))?;
        let k = self.k;
        self.i = i + 1;
        self.k = k + 1;
        Some((k, i))
    }
}
