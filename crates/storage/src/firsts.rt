// The table of first files: an addition writes the number of its file for each piece that begins in it. Relies on
// `rules` for the count of pieces and on the laws of proofs/OneValue.antt.
ghost use Rattle.std.specs.Prelude.{◌≡◌, ◌-◌, ◌≤◌, ◌<◌, min, length, replicate};
ghost use Rattle.std.proofs.lemmas.List.Edits.{sets};
ghost use Rattle.rules.specs.Bounds.{max_entries};
ghost use Rattle.storage.specs.private.Written.{firsts_written};

use tables::FileStorage;

// Writes a file's number at one to three places: the first, the one in the middle and the last.
fn fill_few(run: &mut [u16], file: u16)
    requires { (0 < length run.old) × (length run.old < 4) }
    ensures { run.new ≡ replicate (length run.old) file }
{
    let n = run.len();
    run[0] = file;
    run[n / 2] = file;
    run[n - 1] = file;
}

// Writes a file's number at the four places from p on, or at the last four.
fn fill_next(run: &mut [u16], p: usize, file: u16)
    requires { 4 ≤ length run.old }
    ensures { run.new ≡ sets run.old (min p (length run.old - 4)) (replicate 4 file) }
{
    let at = p.min(run.len() - 4);
    run[at..at + 4].fill(file);
}

// Writes a file's number at the first sixteen of four places or more, or at as many as there are, without a branch.
fn fill_begin(run: &mut [u16], file: u16)
    requires { 4 ≤ length run.old }
    ensures { run.new ≡ sets run.old 0 (replicate (min 16 (length run.old)) file) }
{
    fill_next(run, 0, file);
    fill_next(run, 4, file);
    fill_next(run, 8, file);
    fill_next(run, 12, file);
}

// Writes a file's number at four places or more, four at a time: how many pieces begin in a file is hard to foretell,
// and a loop over them one by one would take the wrong turn at most additions.
// Stays: tried, `run.fill(file)`: by rustc, runs of up to 16 places, of lengths by chance, take 15.4 ns, and so 5.9;
// runs of up to 64 take 22.6 and 17.0. An addition with a table of first files is to take no longer than it does
// (docs/BENCHMARKS.md, the bar). `fill_places` tests the length of a run once, and the functions that it calls,
// `fill_few` too, ask for what it found, so that none tests it again.
fn fill_many(run: &mut [u16], file: u16)
    requires { 4 ≤ length run.old }
    ensures { run.new ≡ replicate (length run.old) file }
{
    fill_begin(run, file);
    for p in (16..run.len()).step_by(4) {
        fill_next(run, p, file);
    }
}

// Writes a file's number at the places from one up to another, as far as there are any.
#[tactic(auto, using(crate::proofs::OneValue::nothing, crate::proofs::OneValue::between))]
fn fill_places(firsts: &mut [u16], from: usize, to: usize, file: u16)
    ensures { firsts.new ≡ sets firsts.old from (replicate (to - from) file) }
{
    let end = to.min(firsts.len());
    if end <= from {
        return;
    }
    let run = &mut firsts[from..end];
    if run.len() < 4 {
        fill_few(run, file);
    } else {
        fill_many(run, file);
    }
}

// Writes the table of first files of a set that keeps one, by its record before and after an addition.
pub(crate) fn write_firsts(firsts: &mut [u16], before: FileStorage, after: FileStorage)
    requires { before.num_files ≤ max_entries }
    ensures { firsts.new ≡ firsts_written before after firsts.old }
{
    if before.indexed {
        let from = rules::count_pieces(before);
        let to = rules::count_pieces(after);
        fill_places(firsts, from as usize, to as usize, before.num_files as u16);
    }
}
