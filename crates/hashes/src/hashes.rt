// `all_path_hashes`, from file_storage.rs: the hashes of all directories and of what stands before their
// separators, in order, each once. They are collected in a batch of the function's own and sorted there. A batch that
// gets full keeps the least, and the next pass over the directories goes on behind these. It relies on `crc32c` for the
// running hash, on `names` for the hash of what stands before, on `lists` for copies, on `answers` for the refusals,
// and on the laws of proofs/.
ghost use Rattle.std.specs.Prelude.{◌≡◌, [], ◌∷◌, ◌≤◌, ◌<◌, leb, length, take, MatchOption};
ghost use Rattle.std.proofs.lemmas.List.Edits.{sets};
ghost use Rattle.names.specs.Paths.{led, hash_of};
ghost use Rattle.hashes.specs.Hashes.{beginnings, ascending, listed_of, all_path_hashes};
ghost use Rattle.hashes.specs.private.Gathering.{Adds, Gathered, hashes_after, all_put, hashes_put};
ghost use Rattle.hashes.specs.private.Due.{due, due_beginnings};

use names::hash_led;
use tables::{DIR_WIDTH, FileStorage, Span};
use types::Refusal;

// One more than the greatest hash.
const HASH_END: u64 = 0x1_0000_0000;

// What a batch of hashes holds: in its first `count` places, in any order and with repeats, those at or above `from`
// and below `end`.
// Stays: the batch itself stands apart. With the `&mut` in the record, each function that takes it would have to
// promise beside its clause that the field keeps its reference.
#[derive(Clone, Copy)]
struct Collected {
    from: u64,
    end: u64,
    count: usize,
}

// Puts numbers in order, each once, at the start of where they stand. Gives how many these are.
// Stays: std drops repeats of a `Vec` alone, so the loop reads at one index and writes at another.
fn sort_distinct(run: &mut [u32]) -> usize
    ensures { (take result run.new ≡ ascending run.old) × (result ≤ length run.new) }
{
    run.sort_unstable();
    let mut kept = 0;
    for i in 0..run.len() {
        let h = run[i];
        if kept == 0 || run[kept - 1] != h {
            run[kept] = h;
            kept += 1;
        }
    }
    kept
}

// Makes room in a full batch: repeats are dropped, and where more than three quarters of its places stay taken, all but
// the least, as many as half of its places hold.
// Stays: the batch stands beside what it holds, here and below, as `Collected` says.
fn compact(batch: &mut [u32], full: Collected) -> Collected
    requires { (full.count ≡ length batch.old) × (1 < length batch.old) }
    ensures { (result.count < length batch.new) × Adds [] full batch.old result batch.new }
{
    let count = sort_distinct(batch);
    let half = batch.len() / 2;
    if count <= half + half / 2 {
        return Collected { count, ..full };
    }
    let end = u64::from(batch[half]);
    Collected {
        end,
        count: half,
        ..full
    }
}

// Collects h too where it is in the range.
fn keep(batch: &mut [u32], collected: Collected, h: u32) -> Collected
    requires { (collected.count < length batch.old) × (1 < length batch.old) }
    ensures { (result.count < length batch.new) × Adds (h ∷ []) collected batch.old result batch.new }
{
    let x = u64::from(h);
    if x < collected.from || collected.end <= x {
        return collected;
    }
    batch[collected.count] = h;
    let count = collected.count + 1;
    let more = Collected { count, ..collected };
    if count == batch.len() {
        return compact(batch, more);
    }
    more
}

// Collects the hashes of a directory's beginnings; `state` is the hash of what stands before the directory. A beginning
// ends at each separator and at the directory's end, and its hash goes on from the one before it.
fn keep_dir(batch: &mut [u32], collected: Collected, state: u32, d: &[u8]) -> Collected
    requires { (collected.count < length batch.old) × (1 < length batch.old) }
    ensures { (result.count < length batch.new) × Adds (hashes_after state d.now) collected batch.old result batch.new }
{
    if d.is_empty() {
        return collected;
    }
    let (mut x, mut more) = (state, collected);
    for part in d.split(|c| *c == b'/') {
        x = crc32c::crc32c_append_lowercase(x, part);
        more = keep(batch, more, x);
        x = crc32c::crc32c_append_lowercase(x, b"/");
    }
    more
}

// The number of a directory's beginnings.
fn beginning_count(d: &[u8]) -> usize
    ensures { result ≡ length (beginnings d.now) }
{
    if d.is_empty() {
        return 0;
    }
    d.iter().filter(|c| **c == b'/').count() + 1
}

// The directories whose hashes are listed: the hash of what stands before each, their rows, and the text area.
#[derive(Clone, Copy)]
struct Listed<'a> {
    state: u32,
    dirs: &'a [[u64; DIR_WIDTH]],
    text: &'a [u8],
}

impl Listed<'_> {
    // Collects the hashes from `from` on, as many as a pass finds places for, and puts them in order, each once.
    fn gather(self, batch: &mut [u32], from: u64) -> Collected
        requires { (from < 4294967296) × (1 < length batch.old) }
        ensures { Gathered (due self.entry) from result batch.new }
    {
        let mut collected = Collected {
            from,
            end: HASH_END,
            count: 0,
        };
        for &row in self.dirs {
            let d = tables::text_at(self.text, Span::from(row));
            collected = keep_dir(batch, collected, self.state, d);
        }
        let count = sort_distinct(&mut batch[..collected.count]);
        Collected { count, ..collected }
    }

    // Puts the hashes into `out`, a batch after the other, and gives their number. The first one is gathered already.
    // Stays: no index is counted here; the next batch begins where the one before it ends.
    fn fill(self, batch: &mut [u32], first: Collected, out: &mut [u32]) -> usize
        requires { (1 < length batch.old)
            × Gathered (due self) 0 first batch.old
            × (length (ascending (due self)) ≤ length out.old) }
        ensures { (out.new ≡ sets out.old 0 (ascending (due self.entry)))
            × (result ≡ length (ascending (due self.entry))) }
    {
        lists::copy_in(out, &batch[..first.count]);
        let (mut at, mut from) = (first.count, first.end);
        while from < HASH_END {
            let more = self.gather(batch, from);
            lists::copy_after(out, at, &batch[..more.count]);
            at += more.count;
            from = more.end;
        }
        at
    }

    // Whether a table of `room` places holds the hashes. They are counted, a batch after the other. The first one is
    // gathered already.
    // Stays: as `fill`; and the room is that of the table that is to be filled, not of the batch.
    fn has_room(self, batch: &mut [u32], first: Collected, room: usize) -> bool
        requires { (1 < length batch.old) × Gathered (due self) 0 first batch.old }
        ensures { result ≡ leb (length (ascending (due self.entry))) room }
    {
        if room < first.count {
            return false;
        }
        let (mut left, mut from) = (room - first.count, first.end);
        while from < HASH_END {
            let next = self.gather(batch, from);
            if left < next.count {
                return false;
            }
            left -= next.count;
            from = next.end;
        }
        true
    }

    // Whether the directories have at most `room` beginnings, repeats included.
    fn repeats_fit(self, room: usize) -> bool
        ensures { result ≡ leb (length (due_beginnings self.entry)) room }
    {
        self.dirs
            .iter()
            .map(|&row| beginning_count(tables::text_at(self.text, Span::from(row))))
            .try_fold(room, usize::checked_sub)
            .is_some()
    }

    // Gathers the first batch, or nothing where a table of `room` places doesn't hold all hashes. Those behind it are
    // counted only where there is no place for each beginning.
    // Stays: the room is that of the table that is to be filled, not of the batch.
    fn first_batch(self, batch: &mut [u32], room: usize) -> Option<Collected>
        requires { 1 < length batch.old }
        ensures { MatchOption result
            (room < length (ascending (due self.entry)))
            (λ first.
            (length (ascending (due self.entry)) ≤ room) × Gathered (due self.entry) 0 first batch.new) }
    {
        let first = self.gather(batch, 0);
        if HASH_END <= first.end {
            return (first.count <= room).then_some(first);
        }
        if self.repeats_fit(room) {
            return Some(first);
        }
        if self.has_room(batch, first, room) {
            return Some(self.gather(batch, 0));
        }
        None
    }

    // Puts the hashes into `out`, or refuses where it is too short.
    fn put(self, batch: &mut [u32], out: &mut [u32]) -> Result<usize, Refusal>
        requires { 1 < length batch.old }
        ensures { listed_of result out.new ≡ all_put (due self.entry) out.old }
    {
        let first = self.first_batch(batch, out.len()).ok_or(Refusal::NoRoom)?;
        Ok(self.fill(batch, first, out))
    }

    // The same, with a batch of so many places. It is a call of its own, so that the stack for many places is taken
    // only where many are asked for.
    #[inline(never)]
    fn list_with<const PLACES: usize>(self, out: &mut [u32]) -> Result<usize, Refusal>
        requires { (1 < PLACES) × (PLACES ≤ 131072) }
        ensures { listed_of result out.new ≡ all_put (due self.entry) out.old }
    {
        self.put(&mut [0u32; PLACES], out)
    }
}

// The hash of the set's name and a separator, of nothing where the name is empty.
fn lead(name: &[u8]) -> u32
    ensures { result ≡ hash_of (led name.now) }
{
    hash_led(0, name)
}

// Puts the hashes of the first `count` directories, after `state`, into `out`, or refuses where a table is too short.
// 1023 beginnings don't fill the small batch. The large one has places for two beginnings of each of the 65535
// directories that a set may have.
// Stays: `out` is a lent table of hashes, and `count` the set's number of directories, of which `dirs` may hold fewer,
// which is refused, or more.
fn put_hashes(
    state: u32,
    dirs: &[u64],
    text: &[u8],
    count: usize,
    out: &mut [u32],
) -> Result<usize, Refusal>
    ensures { listed_of result out.new ≡ hashes_put state dirs.now text.now count out.old }
{
    let (rows, _) = dirs.as_chunks::<DIR_WIDTH>();
    let dirs = rows.get(..count).ok_or(Refusal::NoRoom)?;
    let listed = Listed { state, dirs, text };
    if listed.repeats_fit(1023) {
        return listed.list_with::<1024>(out);
    }
    listed.list_with::<131072>(out)
}

// The hash of each directory and of each part of one that stands before a separator, after the set's name:
// in `out`, ascending, each once.
// Stays: a record of all tables would ask for rows, which this question doesn't read (docs/DECISIONS.md).
pub fn all_path_hashes(
    fs: FileStorage,
    dirs: &[u64],
    text: &[u8],
    out: &mut [u32],
) -> Result<usize, Refusal>
    ensures { listed_of result out.new ≡ all_path_hashes fs dirs.now text.now out.old }
{
    let place = answers::name(fs, text)?;
    let state = lead(tables::text_at(text, place));
    put_hashes(state, dirs, text, fs.num_paths, out)
}
