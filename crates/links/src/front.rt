// The frames of a path written: bytes dropped from its front, and a link's text in their place. It relies on `rope` and
// the laws of proofs/Fronts.antt.
ghost use Rattle.std.specs.Prelude.{◌≡◌, not, ◌+◌, ◌*◌, ◌^◌, ◌≤◌, ◌<◌, length, drop};
ghost use Rattle.path.specs.Join.{is_alone, is_closed, combined};
ghost use Rattle.rope.specs.Rope.{texts_of, text_of, flat, held, frame_width};
ghost use Rattle.links.specs.private.Walking.{with_start, with_frame, word_of};

use rope::{FRAME_WIDTH, Lead, Path, lead_byte, lead_length, start_in};
use tables::Lent;

// Writes both halves of frame k's start: its text is unused from there on.
// Stays: a frame is three words and no record, for which rope's FRAME_WIDTH says why, and a start is two of them.
fn put_start(frames: &mut [u32], k: u32, at: usize)
    requires { k * frame_width + 2 < length frames.old }
    ensures { frames.new ≡ with_start frames.old k at }
{
    let i = k as usize * FRAME_WIDTH;
    frames[i + 1] = (at % 4294967296) as u32;
    frames[i + 2] = (at / 4294967296) as u32;
}

// Writes frame k: the whole text of a lead is unused, and a separator follows it or none.
// Stays: a frame is three words and no record (rope, FRAME_WIDTH): which text it is, and both halves of its start.
pub(crate) fn put_frame(frames: &mut [u32], k: u32, lead: Lead, separated: bool)
    requires { (k * frame_width + 2 < length frames.old) × (lead.file < 2 ^ 29) }
    ensures { frames.new ≡ with_frame frames.old k (word_of lead separated) }
{
    let number = lead.file * 4 + u32::from(lead.from_directory) * 2;
    frames[k as usize * FRAME_WIDTH] = number * 2 + u32::from(separated);
    put_start(frames, k, 0);
}

// Whether a lead's text is empty or `.`.
// Stays: `path::is_alone` and `path::is_closed` ask for a slice. A lead's text is two texts joined and a path's is that
// of many frames, so neither stands anywhere as one, here and below.
#[tactic(auto, using(crate::proofs::Fronts::alone_more))]
fn is_lead_alone(lent: Lent<'_>, lead: Lead) -> bool
    ensures { result ≡ is_alone (text_of lent.entry lead) }
{
    let n = lead_length(lent, lead);
    n == 0 || n == 1 && lead_byte(lent, lead, 0) == b'.'
}

// Whether a lead's text needs a separator after it: it does not end in one.
#[tactic(auto, using(path::proofs::Ends::closed_is))]
fn needs_separator(lent: Lent<'_>, lead: Lead) -> bool
    ensures { result ≡ not (is_closed (text_of lent.entry lead)) }
{
    let n = lead_length(lent, lead);
    lead_byte(lent, lead, n.saturating_sub(1)) != b'/'
}

// Whether the path is empty or `.`.
#[tactic(auto, using(crate::proofs::Fronts::alone_more))]
fn is_path_alone(path: Path<'_>) -> bool
    ensures { result ≡ is_alone (held path.entry) }
{
    !path.has_byte(0) || !path.has_byte(1) && path.byte(0) == b'.'
}

// The frames that a walk writes: there is room for 65536, and the first `depth` of them hold its path.
// Stays: the depth rises and falls, and a slice cut to it could not grow. The tables go beside the frames, as an
// argument of each method. Tried with them as a field, a call keeps nothing of a record that is lent for writing, so
// each method would have to promise that the tables are as before, and the walk's loop to keep that.
#[derive(Drop)]
pub(crate) struct Frames<'a> {
    pub words: &'a mut [u32],
    pub depth: u32,
    ghost room: { (depth ≤ 65536) × (65536 * frame_width ≤ length words.now) },
}

impl Frames<'_> {
    // The path that they hold, with the texts of these tables.
    pub(crate) fn path<'b>(&'b self, lent: Lent<'b>) -> Path<'b>
        ensures lent { result.lent ≡ lent.entry }
        ensures frames { result.frames.now ≡ self.now.words.now }
        ensures depth { result.depth ≡ self.now.depth }
    {
        Path::new(lent, self.words, self.depth)
    }

    // Drops the first `count` bytes of the path.
    fn drop_front(&mut self, lent: Lent<'_>, count: usize)
        ensures path_after { flat (texts_of lent.entry) self.new.words.now self.new.depth
            ≡ drop count (flat (texts_of lent.entry) self.old.words.now self.old.depth) }
        ensures upper_bound { self.new.depth ≤ self.old.depth }
    {
        let path = self.path(lent);
        let p = path.seek(count);
        if 0 < p.k {
            let from = start_in(path.frames, p.k - 1);
            put_start(self.words, p.k - 1, from + p.at);
        }
        self.depth = p.k;
    }

    // Goes through a link: its text stands for the first e bytes of the path and the separator after them.
    pub(crate) fn go_through(&mut self, lent: Lent<'_>, e: usize, lead: Lead)
        requires { (self.old.depth < 65536) × (e + 1 < 2 ^ 64) × (lead.file < 2 ^ 29) }
        ensures path_after { flat (texts_of lent.entry) self.new.words.now self.new.depth
            ≡ combined (text_of lent.entry lead)
            (drop (e + 1) (flat (texts_of lent.entry) self.old.words.now self.old.depth)) }
        ensures upper_bound { self.new.depth ≤ self.old.depth + 1 }
    {
        self.drop_front(lent, e + 1);
        if is_lead_alone(lent, lead) {
            return;
        }
        if is_path_alone(self.path(lent)) {
            put_frame(self.words, 0, lead, false);
            self.depth = 1;
            return;
        }
        put_frame(self.words, self.depth, lead, needs_separator(lent, lead));
        self.depth += 1;
    }
}
