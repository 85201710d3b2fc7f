// The run: lines are obeyed one by one, and the first refusal of any kind ends it. Relies on `listing_input` for the
// form of a line and `listing_output` for the text, on `tables` for the widths of rows, on `storage` for opening and
// additions, on `rules` for too many pieces, and on the laws of proofs/Lines.antt and proofs/Steps.antt.
ghost use Rattle.std.specs.Prelude.{◌≡◌};
ghost use Rattle.types.specs.Refusals.{outcome};
ghost use Rattle.path.specs.Join.{joined_says};
ghost use Rattle.listing_input.specs.Form.{piece_length_in, file_in};
ghost use Rattle.listing_output.specs.Printing.{put_text};
ghost use Rattle.listing.specs.Run.{run, places, listing};
ghost use Rattle.listing.specs.private.Steps.{opened_by, obeyed, stopped_by, counted_by};
ghost use Rattle.listing.specs.private.Steps.{store_in, changed_in, run_in, PlacedIn};

use additions::FileInfo;
use listing_input::{FileLine, file_in, piece_length_in};
use listing_output::{put_refusal, put_set};
use tables::{DIR_WIDTH, FileStorage, Presence, ROOT_WIDTH, ROW_WIDTH, Sha256Hash};
use types::Refusal;

// The refusal that ends a run, and the line that it carries.
#[derive(Clone, Copy)]
pub(crate) struct Stop {
    pub refusal: Refusal,
    pub line: usize,
}

// The most files of a set.
const MAX_FILES: usize = 400;

// The most directories of a set.
const MAX_DIRS: usize = 400;

// The most bytes of a set's texts.
const MAX_TEXT: usize = 65536;

// The tables that a run fills.
// Stays: there is no heap (document 01), so that each table has the most places that a set of a listing can need.
#[derive(Drop)]
pub(crate) struct Tables {
    pub rows: [u64; MAX_FILES * ROW_WIDTH],
    pub roots: [u8; MAX_FILES * ROOT_WIDTH],
    pub dirs: [u64; MAX_DIRS * DIR_WIDTH],
    pub text: [u8; MAX_TEXT],
}

// Obeys the first line: a set with its piece length.
fn open_line(line: &[u8]) -> Result<FileStorage, Refusal>
    ensures { outcome result ≡ opened_by (piece_length_in line.now) }
{
    let n = piece_length_in(line).ok_or(Refusal::ParseFailed)?;
    storage::open(types::signed32(n))
}

// Obeys a file line: adds its file. The set keeps no table of first files, so one of no places is lent.
// Stays: that the tables are as long as before is a clause of this function alone; a ghost field would say it of each
// `Tables` by the same definition.
fn add_line(fs: FileStorage, to: &mut Tables, line: &[u8]) -> Result<FileStorage, Refusal>
    ensures changed { changed_in (outcome result) to.new ≡ obeyed (file_in line.now) (store_in fs to.old) }
    ensures placed { PlacedIn to.new }
{
    let FileLine { size, flags, path } = file_in(line).ok_or(Refusal::ParseFailed)?;
    let bytes = [1u8; 32];
    let file = FileInfo {
        given: Presence::Absent,
        size: types::signed64(size),
        flags: (flags % 8) as u8,
        mtime: 0,
        rooted: Presence::from(16 <= flags),
        root: Sha256Hash { bytes },
    };
    let mut firsts = [0u16; 0];
    storage::add_file(
        fs,
        &mut to.rows,
        &mut to.roots,
        &mut firsts,
        &mut to.dirs,
        &mut to.text,
        file,
        &[],
        path,
        &[],
    )
}

// The end of a run by the refusal of a line, which carries the line.
// Stays: `map_err` and `?` would take the refusal alone, but document 01 asks for let else, whose branch has the whole
// answer; no caller comes here with a set, for which the definition names refusal 17.
fn stopped_by(answer: Result<FileStorage, Refusal>, line: usize) -> Result<FileStorage, Stop>
    ensures { result ≡ stopped_by answer line }
{
    let refusal = answer.err().unwrap_or(Refusal::ParseFailed);
    Err(Stop { refusal, line })
}

// The run that ends after the last line: refusal 13 where there are too many pieces.
fn counted_by(fs: FileStorage, line: usize) -> Result<FileStorage, Stop>
    ensures { result ≡ counted_by fs line }
{
    if rules::has_many(fs) {
        return Err(Stop {
            refusal: Refusal::TooManyPieces,
            line,
        });
    }
    Ok(fs)
}

// Runs over the lines of an input.
fn run_input(input: &[u8], to: &mut Tables) -> Result<FileStorage, Stop>
    ensures { run_in result to.new ≡ run places input.now }
{
    if 65536 < input.len() {
        return Err(Stop {
            refusal: Refusal::ParseFailed,
            line: 0,
        });
    }
    // Where there is no input, `split` gives one line of no bytes, which is out of form.
    let ended = input.strip_suffix(b"\n").unwrap_or(input);
    let mut lines = ended.split(|c| *c == b'\n');
    let answer = open_line(lines.next().unwrap_or(ended));
    // Stays: document 01 asks that each line's answer is taken apart by let else.
    let Ok(mut fs) = answer else {
        return stopped_by(answer, 1);
    };
    let mut line = 1;
    for text in lines {
        line += 1;
        let answer = add_line(fs, to, text);
        // Stays: as for the first line.
        let Ok(next) = answer else {
            return stopped_by(answer, line);
        };
        fs = next;
    }
    counted_by(fs, line)
}

// The listing of an input, at the start of `out`, and its length; refusal 10 where `out` is too short.
pub fn list(input: &[u8], out: &mut [u8]) -> Result<usize, Refusal>
    ensures { joined_says result out.new ≡ put_text (listing input.now) out.old }
{
    let mut tables = Tables {
        rows: [0; MAX_FILES * ROW_WIDTH],
        roots: [0; MAX_FILES * ROOT_WIDTH],
        dirs: [0; MAX_DIRS * DIR_WIDTH],
        text: [0; MAX_TEXT],
    };
    match run_input(input, &mut tables) {
        Ok(fs) => put_set(fs, &tables.rows, &tables.dirs, &tables.text, out),
        Err(stop) => put_refusal(stop.refusal, stop.line, out),
    }
}
