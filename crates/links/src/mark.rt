// The marks of flagged links: what becomes of a link's text (its verdict, m / 8) and how a walk goes through the link
// (its lead, m % 8), read and written one at a time; all leads are reopened at once. They rely on `lists` and the laws
// of proofs/Packed.antt.
ghost use Rattle.std.specs.Prelude.{◌≡◌, map, ◌+◌, ◌*◌, ◌<◌, get_or, set};
ghost use Rattle.links.specs.Judging.{verdict_read};
ghost use Rattle.links.specs.private.Verdicts.{verdict_number};
ghost use Rattle.links.specs.private.Walking.{lead, verdict, untraversed};

// A link's text stays, becomes the link's own internal path, or becomes the text from the link's directory. Marks hold
// the variant's number; any other number is read as `FromDirectory`.
#[derive(Clone, Copy, PartialEq, Eq)]
pub enum LinkVerdict {
    Keep = 0,
    OwnPath = 1,
    FromDirectory = 2,
}

// The verdict that a number is read as.
impl From<u8> for LinkVerdict {
    ghost from_gives = { λ number verdict. verdict ≡ verdict_read number };

    fn from(number: u8) -> LinkVerdict {
        match number {
            0 => LinkVerdict::Keep,
            1 => LinkVerdict::OwnPath,
            _ => LinkVerdict::FromDirectory,
        }
    }
}

// The number that stands for a verdict in the first pass's marks where a walk decides.
// Stays: while links are judged, a mark's byte holds a lead beside the verdict, and there is a fourth verdict, this
// one, which no caller sees and `LinkVerdict` has not. `judge_links` is lent one byte for each link: as a record of
// two, the 65535 marks of a cleaning would take 64 KiB of stack more.
pub(crate) const VERDICT_WALK: u8 = 3;

// Leads of links that a walk may go through: by the text as it was given, or by the text from the link's directory. 0
// is none, and a lead that was traversed is larger by 2.
// Stays: a lead is the lower three bits of a mark's byte. A walk writes it back 2 larger; an enum of these two would be
// made at `lead_mark` and turned into its number again for that.
const LEADS_AS_GIVEN: u8 = 1;

pub(crate) const LEADS_FROM_DIRECTORY: u8 = 2;

// The marks that the first pass sets: a verdict, and a lead where a walk may go through the link.
pub(crate) const KEEPS_TEXT: u8 = LinkVerdict::Keep as u8 * 8;

pub(crate) const KEEPS_TEXT_AND_LEADS: u8 = LinkVerdict::Keep as u8 * 8 + LEADS_AS_GIVEN;

pub(crate) const OWN_PATH_TAKEN: u8 = LinkVerdict::OwnPath as u8 * 8;

pub(crate) const FROM_DIRECTORY: u8 = LinkVerdict::FromDirectory as u8 * 8;

pub(crate) const FROM_DIRECTORY_AND_LEADS: u8 = LinkVerdict::FromDirectory as u8 * 8
    + LEADS_FROM_DIRECTORY;

pub(crate) const WALK_DECIDES: u8 = VERDICT_WALK * 8 + LEADS_AS_GIVEN;

// The lead of mark k, 0 where there is none.
pub(crate) fn lead_at(marks: &[u8], k: usize) -> u8
    ensures { result ≡ get_or (map lead marks.now) k 0 }
{
    lists::item_or(marks, k, 0) % 8
}

// The verdict of mark k, 0 where there is none.
pub(crate) fn verdict_at(marks: &[u8], k: usize) -> u8
    ensures { result ≡ verdict (get_or marks.now k 0) }
{
    lists::item_or(marks, k, 0) / 8
}

// The verdict that mark k holds once links are judged; past the end of the marks, `Keep`.
pub fn verdict_in(marks: &[u8], k: usize) -> LinkVerdict
    ensures { result ≡ verdict_read (get_or marks.now k 0) }
{
    LinkVerdict::from(lists::item_or(marks, k, 0))
}

// Sets the lead of mark k and keeps its verdict; past the end it does nothing.
// Stays: a mark is one byte that holds a lead and a verdict (VERDICT_WALK says why), so whoever writes leads has to say
// that the verdicts stay.
pub(crate) fn put_lead(marks: &mut [u8], k: usize, m: u8)
    requires { m < 8 }
    ensures marks_after { map lead marks.new ≡ set (map lead marks.old) k m }
    ensures marks_unchanged { map verdict marks.new ≡ map verdict marks.old }
{
    lists::put(marks, k, lists::item_or(marks, k, 0) / 8 * 8 + m);
}

// Sets the verdict of mark k and keeps its lead; past the end it does nothing.
// Stays: it sets the upper five bits of a byte and keeps the lower three, a lead; a record of the two would be made of
// the byte and turned into it again.
pub(crate) fn put_verdict(marks: &mut [u8], k: usize, verdict: LinkVerdict)
    ensures { marks.new ≡ set marks.old k (verdict_number verdict * 8 + lead (get_or marks.old k 0)) }
{
    let kept = lists::item_or(marks, k, 0) % 8;
    lists::put(marks, k, verdict as u8 * 8 + kept);
}

// The lead m, untraversed.
fn untraversed_lead(m: u8) -> u8
    ensures { result ≡ untraversed m }
{
    if m < 3 { m } else { m - 2 }
}

// Makes all traversed leads untraversed.
#[tactic(auto, using(crate::proofs::Packed::reopened_leads, crate::proofs::Packed::reopened_verdicts))]
pub(crate) fn reopen(marks: &mut [u8])
    ensures marks_after { map lead marks.new ≡ map untraversed (map lead marks.old) }
    ensures marks_unchanged { map verdict marks.new ≡ map verdict marks.old }
{
    for mark in marks.iter_mut() {
        *mark = *mark / 8 * 8 + untraversed_lead(*mark % 8);
    }
}
