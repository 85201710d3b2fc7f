// Tree widths and first nodes, what document 01 needs of merkle.rs. Relies on `types` for the refusal
// and on the laws of proofs/Widths.antt.
#![tactic(auto)]

ghost use Rattle.std.specs.Prelude.{◌≡◌, ◌≤◌};
ghost use Rattle.types.specs.Refusals.{outcome};
ghost use Rattle.merkle.specs.Width.{width_of, num_leafs, first_node};

use types::Refusal;

// The most blocks or pieces that a tree is over.
const MAX_LEAVES: usize = 1073741823;

// The tree width of an accepted count, from the leading zeros of the count less one.
// Stays: document 01 asks for the width from the leading zeros of the count less one.
#[tactic(auto, using(crate::proofs::Widths::by_digits))]
fn width(count: usize) -> usize
    requires { (1 ≤ count) × (count ≤ 1073741823) }
    ensures { result ≡ width_of count }
{
    let zeros = (count - 1).leading_zeros();
    1 << (64 - zeros)
}

// The width of the tree over `blocks` blocks or pieces, or refusal 16.
pub fn merkle_num_leafs(blocks: usize) -> Result<usize, Refusal>
    ensures { outcome result ≡ num_leafs blocks }
{
    if !(1..=MAX_LEAVES).contains(&blocks) {
        return Err(Refusal::NoTree);
    }
    Ok(width(blocks))
}

// The first node of the layer of `blocks` blocks or pieces, numbered from the root as 0, or refusal 16.
pub fn merkle_first_node(blocks: usize) -> Result<usize, Refusal>
    ensures { outcome result ≡ first_node blocks }
{
    let w = merkle_num_leafs(blocks)?;
    Ok(w - 1)
}
