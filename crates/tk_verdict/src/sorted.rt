ghost use Rattle.std.specs.Prelude.{◌≡◌, map, IfOk};
ghost use Rattle.tk_verdict.specs.Available.{by_index as in_order};

use std::alloc::{AllocError, Global};
use tk_types::Child;

/// Children in the order of their indexes.
pub(crate) fn by_index<'a>(
    alloc: Global,
    children: &[&'a Child],
) -> Result<Vec<&'a Child>, AllocError>
    ensures { IfOk result (λ sorted. map (λ child. child.now) sorted.items ≡ in_order (map (λ child. child.now) children.now)) }
{
    let mut sorted = copied(alloc, children)?;
    sorted.sort_by_key(|child| child.index)?;
    Ok(sorted)
}

/// The same children.
fn copied<'a>(alloc: Global, children: &[&'a Child]) -> Result<Vec<&'a Child>, AllocError>
    ensures { IfOk result (λ copied. copied.items ≡ children.now) }
{
    let mut copied = Vec::with_capacity(alloc, children.len())?;
    for child in children {
        copied.push(*child)?;
    }
    Ok(copied)
}
