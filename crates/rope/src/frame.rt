// A path as frames hold it, and one frame of it: which text it is, how much of it is left, and the bytes of that. They
// rely on lead.rt, `lists` and the laws of proofs/Leads.antt.
ghost use Rattle.std.specs.Prelude.{◌≡◌, ◌+◌, ◌/◌, ◌%◌, ◌^◌, ◌<◌, ltb, length, get_or};
ghost use Rattle.rope.specs.Rope.{texts_of, text_of, kind, start, unused};

use crate::lead::{Lead, lead_byte, lead_length};
use tables::Lent;

// The words of a frame: its text's number with its separator, and both halves of its start.
// Stays: made as a record of a file's number, two flags and both halves of the start, a frame of twelve bytes has a
// number of 16 bits where a word has one of 29, which asks more of callers. With a number of 32 bits, or with its start
// as one, it takes sixteen, so a walk's 65536 frames would take 1 MiB of stack and not 768 KiB (docs/DECISIONS.md). As
// three words in an array a frame keeps its bits and its bytes; but `Path::frames` is public and lends any number of
// words, and one that is no multiple of three could then not be lent, which asks more of callers.
pub const FRAME_WIDTH: usize = 3;

// The path that the first `depth` frames hold, with the texts of the lent tables.
// Stays: `depth` may pass the frames that are lent, which then read as zeros; no slice of so many could be lent.
#[derive(Clone, Copy)]
pub struct Path<'a> {
    pub lent: Lent<'a>,
    pub frames: &'a [u32],
    pub depth: u32,
}

// The number of separators after the text of frame k: 0 or 1.
pub fn tail_in(frames: &[u32], k: u32) -> usize
    ensures { result ≡ kind frames.now k % 2 }
{
    (lists::item_or(frames, k as usize * FRAME_WIDTH, 0) % 2) as usize
}

// Where the unused part of frame k's text begins.
pub fn start_in(frames: &[u32], k: u32) -> usize
    ensures { result ≡ start frames.now k }
{
    let i = k as usize * FRAME_WIDTH;
    let low = lists::item_or(frames, i + 1, 0);
    let high = lists::item_or(frames, i + 2, 0);
    low as usize + high as usize * 4294967296
}

// Whether byte j is one of n and then t bytes. The sum could overflow.
pub fn is_in(j: usize, n: usize, t: usize) -> bool
    ensures { result ≡ ltb j (n + t) }
{
    j < n || j - n < t
}

impl<'a> Path<'a> {
    // The path that the first `depth` of these frames hold.
    pub fn new(lent: Lent<'a>, frames: &'a [u32], depth: u32) -> Path<'a>
        ensures { result ≡ record { lent = lent.entry; frames = frames.entry; depth = depth } }
    {
        Path {
            lent,
            frames,
            depth,
        }
    }
}

impl Path<'_> {
    // The lead whose text frame k holds.
    #[tactic(auto, using(crate::proofs::Leads::text_read))]
    fn lead(self, k: u32) -> Lead
        ensures { text_of self.entry.lent result ≡ texts_of self.entry.lent (kind self.entry.frames.now k / 2) }
    {
        Lead::from(lists::item_or(self.frames, k as usize * FRAME_WIDTH, 0) / 2)
    }

    // How many bytes of frame k's text are left. Start and that add up.
    pub fn text_left(self, k: u32) -> usize
        ensures value { result ≡ length
            (unused (texts_of self.entry.lent) self.entry.frames.now k) }
        ensures result_bound { start self.entry.frames.now k + result < 2 ^ 64 }
    {
        let n = lead_length(self.lent, self.lead(k));
        n.saturating_sub(start_in(self.frames, k))
    }

    // Byte j of the unused part of frame k's text.
    pub(crate) fn unused_byte(self, k: u32, j: usize) -> u8
        requires { (j < length (unused (texts_of self.lent) self.frames.now k))
            × (start self.frames.now k + j < 2 ^ 64) }
        ensures { result ≡ get_or (unused (texts_of self.entry.lent) self.entry.frames.now k) j 0 }
    {
        let from = start_in(self.frames, k);
        lead_byte(self.lent, self.lead(k), from + j)
    }
}
