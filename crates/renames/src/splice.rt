// Replacing a part of a table: what stands after the part is moved, then the new items are written. Relies on `lists`
// for both, and on the laws of proofs/Splices.antt.
ghost use Rattle.std.specs.Prelude.{◌≡◌, ◌+◌, ◌≤◌, length};
ghost use Rattle.renames.specs.private.Slots.{spliced};

// Replaces the `old` items at `at`, within the first `used`, by new ones.
// Stays: the table is lent whole, with room behind the items in use.
#[tactic(auto, using(crate::proofs::Splices::splice_is))]
pub(crate) fn splice<T: Copy>(items: &mut [T], used: usize, at: usize, old: usize, new: &[T])
    requires { (at + old ≤ used) × (at + length new.now ≤ length items.old) }
    ensures { items.new ≡ spliced items.old used at old new.now }
{
    lists::move_part(items, used, at + old, at + new.len());
    lists::copy_after(items, at, new);
}
