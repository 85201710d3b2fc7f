// The texts by which links lead, read where they stand. They rely on `lookup`, `tables`, `path` and `lists`, and on the
// laws of proofs/Leads.antt.
ghost use Rattle.std.specs.Prelude.{◌≡◌, length, get_or};
ghost use Rattle.path.specs.Join.{appended};
ghost use Rattle.rope.specs.Rope.{lead_read, text_of};

use tables::Lent;

// A text by which a link leads: that of the link `file`, as it was given or from the link's directory.
// Stays: the flag does not say whether there is a file; it says how the text is taken, and the file is used either way.
// Stays: the tables go beside a lead. A frame holds the lead alone as a number, and a record of both would be made at
// each byte and taken apart at once.
#[derive(Clone, Copy)]
pub struct Lead {
    pub file: u32,
    pub from_directory: bool,
}

// The lead that a number is read as; a frame holds it doubled.
impl From<u32> for Lead {
    ghost from_gives = { λ number lead. lead ≡ lead_read number };

    fn from(number: u32) -> Lead {
        Lead {
            file: number / 4,
            from_directory: 2 <= number % 4,
        }
    }
}

// Byte j of a directory and a name joined, 0 past the end.
// Stays: tried as plain Rust, with all bytes of 12, 1 and 14 asked for in turn, one takes 2.8 ns, and by `nth` of a
// chain of the three 4.0. Rattle's `nth` passes over each byte before j: written as it is, one takes 30 ns, and of 200,
// 1 and 55 bytes 230 (here 2.7). Walks read their paths so, and cleanings are far behind the Rust's
// (docs/BENCHMARKS.md).
#[tactic(auto, using(crate::proofs::Leads::joined_bytes))]
fn joined_byte(d: &[u8], n: &[u8], j: usize) -> u8
    ensures { result ≡ get_or (appended d.now n.now) j 0 }
{
    let (kept, separator) = path::join_prefix(d, n);
    if j < kept.len() {
        return kept[j];
    }
    let k = j - kept.len();
    if k < separator.len() {
        return separator[k];
    }
    lists::item_or(n, k - separator.len(), 0)
}

// The directory and the text that a lead's text joins; no directory where the text is as it was given.
fn lead_parts(lent: Lent<'_>, lead: Lead) -> (&[u8], &[u8])
    ensures { appended result.0.now result.1.now ≡ text_of lent.entry lead }
{
    let row = tables::row_at(lent.rows, lead.file as usize);
    let t = lookup::link_text(lent.text, row);
    if lead.from_directory {
        (lent.directory_of(row), t)
    } else {
        (b"", t)
    }
}

// The length of a lead's text.
pub fn lead_length(lent: Lent<'_>, lead: Lead) -> usize
    ensures { result ≡ length (text_of lent.entry lead) }
{
    let (d, t) = lead_parts(lent, lead);
    path::joined_length(d, t)
}

// Byte j of a lead's text, 0 past its end.
pub fn lead_byte(lent: Lent<'_>, lead: Lead, j: usize) -> u8
    ensures { result ≡ get_or (text_of lent.entry lead) j 0 }
{
    let (d, t) = lead_parts(lent, lead);
    joined_byte(d, t, j)
}
