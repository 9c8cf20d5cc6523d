ghost use Rattle.std.specs.Prelude.{◌≡◌, bytes_eq, map, IfOk};
ghost use Rattle.std.specs.List.{list_any, list_all, range_with_len};
ghost use Rattle.tk_types.specs.declared.run.Child.{Child as ChildRecord};
ghost use Rattle.tk_verdict.specs.Available.{by_index as sorted_by_index};
ghost use Rattle.tk_verdict.specs.Facts.{all_ended, has_ended, is_good_where, is_running as is_running_child};

use crate::outcome::{ended_well, is_running};
use crate::sorted::by_index;
use std::alloc::{AllocError, Global};
use tk_types::Child;

/// Whether one of the children hasn't ended.
pub(crate) fn is_any_running(children: &[&Child]) -> bool
    ensures { result ≡ list_any is_running_child (map (λ c. c.now) children.now) }
{
    for child in children {
        if is_running(child) {
            return true;
        }
    }
    false
}

/// Whether there are children, and all of them ended well, for a task that ignores failures or not.
pub fn are_all_good(children: &[&Child], ignores: bool) -> bool
    ensures { result ≡ all_ended (is_good_where ignores) (map (λ c. c.now) children.now) }
{
    if children.is_empty() {
        return false;
    }
    for child in children {
        if !ended_well(child, ignores) {
            return false;
        }
    }
    true
}

/// Whether the children's indexes are those below a number, in order.
fn rise_to(children: &[&Child], count: usize) -> bool
    ensures { result ≡ bytes_eq (map (λ (c : ChildRecord). c.index) (map (λ c. c.now) children.now)) (range_with_len 0 count) }
{
    if children.len() != count {
        return false;
    }
    for (place, child) in children.iter().enumerate() {
        if child.index as usize != place {
            return false;
        }
    }
    true
}

/// Whether the children's indexes are exactly those below a number. The only error is want of memory.
pub(crate) fn are_exact(
    alloc: Global,
    children: &[&Child],
    count: usize,
) -> Result<bool, AllocError>
    ensures { IfOk result (λ exact. exact ≡ bytes_eq (map (λ (c : ChildRecord). c.index) (sorted_by_index (map (λ c. c.now) children.now))) (range_with_len 0 count)) }
{
    let sorted = by_index(alloc, children)?;
    Ok(rise_to(sorted.as_slice(), count))
}
