// The leaves of a message, in the order of its octets.
ghost use Rattle.std.specs.Prelude.{◌≡◌, ◌∷◌, [], IfOk, OnOk, MatchOption, None, Some};
ghost use Rattle.body_parts.specs.reading.LeafLists.{parts_of, part_at, Gathers};
ghost use Rattle.body_parts.specs.Leaves.{AreLeaves};

use mime_tree::Part;
use std::alloc::{AllocError, Global};

/// Gathers the leaves under a part, which may be one.
#[cycle(gather)]
fn gather_part<'a>(leaves: &mut Vec<&'a Part>, part: &'a Part) -> Result<(), AllocError>
    ensures { OnOk result (Gathers (part.now ∷ []) (parts_of leaves.old.items) (parts_of leaves.new.items)) }
{
    if part.number.is_some() {
        leaves.push(part)?;
        return Ok(());
    }
    gather(leaves, &part.children)
}

/// Gathers the leaves under parts that stand side by side.
#[cycle(gather)]
fn gather<'a>(leaves: &mut Vec<&'a Part>, parts: &'a [Part]) -> Result<(), AllocError>
    ensures { OnOk result (Gathers parts.now (parts_of leaves.old.items) (parts_of leaves.new.items)) }
{
    for part in parts {
        gather_part(leaves, part)?;
    }
    Ok(())
}

/// The leaves of a message with this tree, in the order of their numbers, which begin at 1.
pub(crate) fn leaves_of(alloc: Global, root: &Part) -> Result<Vec<&Part>, AllocError>
    ensures { IfOk result (λ v. AreLeaves (root.now ∷ []) (parts_of v.items)) }
{
    let mut leaves = Vec::new(alloc);
    gather_part(&mut leaves, root)?;
    Ok(leaves)
}

/// The leaf of this number.
pub(crate) fn leaf_at<'a>(leaves: &[&'a Part], number: u64) -> Option<&'a Part>
    ensures { MatchOption result (part_at (parts_of leaves.now) number ≡ None) (λ p. part_at (parts_of leaves.now) number ≡ Some p.now) }
{
    match leaves.get(number.saturating_sub(1) as usize) {
        None => None,
        Some(part) => Some(*part),
    }
}
