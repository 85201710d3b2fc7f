// Additions: planned first, and written after. Relies on the plan of `plan`, the writers of write.rt and firsts.rt, and
// the laws of proofs/Added.antt.
ghost use Rattle.std.specs.Prelude.{◌≡◌};
ghost use Rattle.types.specs.Refusals.{outcome};
ghost use Rattle.tables.specs.Model.{store_of};
ghost use Rattle.change.specs.Changes.{changed_of};
ghost use Rattle.additions.specs.Addition.{addition_of};
ghost use Rattle.plan.specs.Outcomes.{add_stored};

use crate::firsts::write_firsts;
use crate::write::write_all;
use additions::{FileInfo, Given};
use tables::FileStorage;
use types::Refusal;

// Adds a file, whose texts are its given name, its path and its link text. In a v2 set a pad follows where the total is
// no multiple of the piece length. `firsts` is the table of first files; a set that keeps none has it left as it is.
// Stays: the call is document 01's, and each table is lent by itself (docs/DECISIONS.md, Forms 10).
pub fn add_file(
    fs: FileStorage,
    rows: &mut [u64],
    roots: &mut [u8],
    firsts: &mut [u16],
    dirs: &mut [u64],
    text: &mut [u8],
    file: FileInfo,
    filename: &[u8],
    path: &[u8],
    symlink_path: &[u8],
) -> Result<FileStorage, Refusal>
    ensures { changed_of (outcome result)
        rows.new roots.new firsts.new dirs.new text.new
        ≡ add_stored
        (store_of fs
        rows.old roots.old firsts.old dirs.old text.old)
        (addition_of file filename.now path.now symlink_path.now) }
{
    let plan = plan::plan_add(
        fs,
        rows,
        roots,
        firsts,
        dirs,
        text,
        file,
        filename,
        path,
        symlink_path,
    )?;
    write_all(
        rows,
        roots,
        dirs,
        text,
        plan,
        file,
        Given {
            name: additions::given_name(file.given, filename),
            path,
            link: symlink_path,
            parts: plan.parts,
        },
    );
    write_firsts(firsts, plan.before, plan.after);
    Ok(plan.after)
}
