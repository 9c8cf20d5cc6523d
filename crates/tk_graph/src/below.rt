ghost use Rattle.std.specs.Prelude.{◌≡◌, ◌<◌, ◌^◌, ◌&&◌, ◌||◌, ◌==◌, ℕ, [], length, replicate, slice_index_or, All, IfOk, OnOk};
ghost use Rattle.tk_graph.specs.Cycle.{is_among};
ghost use Rattle.tk_graph.specs.Removal.{AreChildren, IsInside};

use std::alloc::{AllocError, Global};
use tk_types::List;

/// So many empty lists.
fn empty_lists(alloc: Global, count: usize) -> Result<Vec<List<u32>>, AllocError>
    ensures { IfOk result (λ lists. lists.items ≡ replicate count []) }
{
    let mut lists = Vec::with_capacity(alloc, count)?;
    for _i in 0..count {
        lists.push(List::new(alloc))?;
    }
    Ok(lists)
}

/// Puts a task among the children of its parents.
fn add_child(below: &mut Vec<List<u32>>, parents: &[u32], task: u32) -> Result<(), AllocError>
    requires { All (λ parent. parent < length below.old.items) parents.now }
    ensures count { length below.new.items ≡ length below.old.items }
    ensures added { OnOk result ((parent child : ℕ) → parent < length below.old.items
        → is_among (slice_index_or below.new.items parent []) child ≡ (is_among (slice_index_or below.old.items parent []) child || (child == task && is_among parents.now parent))) }
{
    for parent in parents {
        let children = &mut below[*parent as usize];
        children.push(task)?;
    }
    Ok(())
}

/// The children of each task.
pub(crate) fn children(alloc: Global, above: &[List<u32>]) -> Result<Vec<List<u32>>, AllocError>
    requires few { length above.now < 2 ^ 32 }
    requires inside { IsInside above.now }
    ensures count { IfOk result (λ below. length below.items ≡ length above.now) }
    ensures children { IfOk result (λ below. AreChildren above.now below.items) }
{
    let mut below = empty_lists(alloc, above.len())?;
    for (task, parents) in above.iter().enumerate() {
        add_child(&mut below, parents.as_slice(), task as u32)?;
    }
    Ok(below)
}
