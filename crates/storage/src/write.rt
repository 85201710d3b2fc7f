// The writers of an addition: each writes tables by the plan, and none can fail. Relies on the
// writers of `tables` and `lists`.
ghost use Rattle.std.specs.Prelude.{◌≡◌, ◌+◌, ◌≤◌, option_copied};
ghost use Rattle.tables.specs.Span.{text_at};
ghost use Rattle.rules.specs.Bounds.{max_entries};
ghost use Rattle.additions.specs.private.Texts.{name_from, link_text_of};
ghost use Rattle.additions.specs.Addition.{optional_of};
ghost use Rattle.plan.specs.Write.{roots_added};
ghost use Rattle.storage.specs.private.Written.{renamed, dirs_renamed, dir_text_written, dir_written, texts_written};
ghost use Rattle.storage.specs.private.Written.{pad_text_written, text_written, pad_dir_written, dirs_written};
ghost use Rattle.storage.specs.private.Written.{pad_row_written, rows_written};

use additions::{FileInfo, Given};
use plan::{AddPlan, NewDir};
use tables::FileEntry;

// Removes the old name of a set without files, which is named again, and lowers the directory rows for it.
fn free_name(dirs: &mut [u64], text: &mut [u8], plan: AddPlan)
    ensures dirs_after { dirs.new ≡ dirs_renamed plan.before.num_files plan.old plan.before.num_paths dirs.old }
    ensures text_after { text.new ≡ renamed plan.before.num_files plan.old plan.before.text_len text.old }
{
    if plan.before.num_files == 0 {
        tables::lower_dirs(dirs, plan.before.num_paths, plan.old);
        tables::remove_text(text, plan.before.text_len, plan.old);
    }
}

// Writes the text of a directory, where that is new.
fn write_dir_text(text: &mut [u8], dir: Option<NewDir>, source: &[u8])
    ensures { text.new ≡ dir_text_written dir text.old source.now }
{
    if let Some(d) = dir {
        lists::copy_after(text, d.text.at, source);
    }
}

// Writes the row of a directory, where that is new.
fn write_dir(dirs: &mut [u64], dir: Option<NewDir>)
    ensures { dirs.new ≡ dir_written dir dirs.old }
{
    if let Some(d) = dir {
        tables::put_dir(dirs, d.slot, d.text);
    }
}

// Writes the new texts of an addition but the pad's, which stand in its path, its given name and its link text.
fn write_texts(text: &mut [u8], plan: AddPlan, given: Given)
    ensures { text.new
        ≡ texts_written plan text.old
        (text_at given.entry.path.now given.entry.parts.set_name)
        (text_at given.entry.path.now given.entry.parts.directory)
        (name_from (option_copied given.entry.name) (text_at given.entry.path.now given.entry.parts.name))
        (link_text_of plan.before.num_symlinks given.entry.link.now) }
{
    lists::copy_after(text, plan.start, given.set_name());
    write_dir_text(text, plan.dir, given.directory());
    lists::copy_after(text, plan.row.name.at, given.stored_name());
    let link = given.link_text(plan.before.num_symlinks);
    lists::copy_after(text, plan.row.link.at, link);
}

// Writes the pad of an addition, where there is one: its row, which is all of its record, its directory and its texts.
// Stays: here and above: each table has a clause of its own, and `write_dir` and `free_name` write one or two of them;
// lent a `LentSetMut`, each writer would have to say of every other table that it stays.
fn write_pad(rows: &mut [u64], dirs: &mut [u64], text: &mut [u8], plan: AddPlan)
    requires { plan.before.num_files ≤ max_entries }
    ensures rows_after { rows.new ≡ pad_row_written plan.before.num_files plan.pad_row rows.old }
    ensures dirs_after { dirs.new ≡ pad_dir_written plan.pad_row plan.pad_dir dirs.old }
    ensures text_after { text.new ≡ pad_text_written plan.pad_row plan.pad_dir text.old }
{
    if let Some(row) = plan.pad_row {
        tables::put_row(rows, plan.before.num_files + 1, row);
        write_dir(dirs, plan.pad_dir);
        write_dir_text(text, plan.pad_dir, b".pad");
        lists::put_decimal(text, row.name.at, row.size);
    }
}

// Writes an addition by its plan: row, root, directory row and texts, and then the pad.
// Stays: the tables are lent one by one, as `write_pad` says. That files are few comes from the contract of `plan_add`,
// and three functions ask for it: `write_pad`, `write_all` and `write_firsts`. As a ghost field of `AddPlan` it would
// have to hold of every plan, and the definition `plan_from` (plan, specs/private/Steps.antt) makes one for any set.
// The root goes on as it is lent, beside its presence: `tables::put_entry` takes document 01's record of a file, which
// has both.
pub(crate) fn write_all(
    rows: &mut [u64],
    roots: &mut [u8],
    dirs: &mut [u64],
    text: &mut [u8],
    plan: AddPlan,
    file: FileInfo,
    given: Given,
)
    requires { plan.before.num_files ≤ max_entries }
    ensures rows_after { rows.new ≡ rows_written plan.before.num_files plan rows.old }
    ensures roots_after { roots.new
        ≡ roots_added roots.old plan.before.num_files (optional_of file.rooted file.root.bytes) }
    ensures dirs_after { dirs.new ≡ dirs_written plan.before.num_files plan.before.num_paths plan dirs.old }
    ensures text_after { text.new
        ≡ text_written plan.before.num_files plan.before.text_len plan text.old
        (text_at given.entry.path.now given.entry.parts.set_name)
        (text_at given.entry.path.now given.entry.parts.directory)
        (name_from (option_copied given.entry.name) (text_at given.entry.path.now given.entry.parts.name))
        (link_text_of plan.before.num_symlinks given.entry.link.now) }
{
    tables::put_entry(
        rows,
        roots,
        plan.before.num_files,
        FileEntry {
            row: plan.row,
            presence: file.rooted,
            root: file.root,
        },
    );
    free_name(dirs, text, plan);
    write_dir(dirs, plan.dir);
    write_texts(text, plan, given);
    write_pad(rows, dirs, text, plan);
}
