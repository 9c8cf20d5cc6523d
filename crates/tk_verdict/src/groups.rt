ghost use Rattle.std.specs.Prelude.{◌≡◌, ℕ, [], map, nat_lt, replicate, slice_index_or, IfOk, IsTrue};
ghost use Rattle.std.specs.List.{list_all};
ghost use Rattle.tk_types.specs.declared.run.Child.{Child as ChildRecord};
ghost use Rattle.tk_verdict.specs.Facts.{children_at};

use std::alloc::{AllocError, Global};
use std::marker::Model;
use tk_types::Child;

/// The children of each task, in the order of the facts. A contract sees all children.
#[derive(Drop)]
pub struct Groups<'a> {
    children: &'a [Child],
    groups: Vec<Vec<&'a Child>>,
}

impl<'a> Model for Groups<'a> {
    ghost use Rattle.std.specs.Prelude.{◌≡◌, List, [], map, ℕ, slice_index_or};
    ghost use Rattle.tk_types.specs.declared.run.Child.{Child};
    ghost use Rattle.tk_verdict.specs.Facts.{children_at};

    ghost Value = { List Child };

    ghost view = { λ groups. groups.children.now };

    ghost invariant = { λ groups. (place : ℕ)
        → slice_index_or (map (λ group. map (λ child. child.now) group.items) groups.groups.items) place [] ≡ children_at groups.children.now place };
}

impl<'a> Groups<'a> {
    /// The children of each of so many tasks, in one pass. The only error is want of memory.
    pub fn new(alloc: Global, total: usize, children: &'a [Child]) -> Result<Self, AllocError>
        requires exist { IsTrue (list_all (λ (c : ChildRecord). nat_lt c.task total) children.now) }
        ensures { IfOk result (λ groups. groups ≡ children.now) }
    {
        Ok(Groups {
            children,
            groups: grouped(alloc, total, children)?,
        })
    }

    /// The children of the task at a place.
    pub fn at(&self, place: u32) -> &[&'a Child]
        ensures { map (λ child. child.now) result.now ≡ children_at self.now place }
    {
        let place = place as usize;
        if place < self.groups.len() {
            return self.groups[place].as_slice();
        }
        &[]
    }
}

/// So many empty groups.
fn empty_groups<'a>(alloc: Global, total: usize) -> Result<Vec<Vec<&'a Child>>, AllocError>
    ensures { IfOk result (λ groups. map (λ group. map (λ child. child.now) group.items) groups.items ≡ replicate total []) }
{
    let mut groups = Vec::with_capacity(alloc, total)?;
    for _i in 0..total {
        groups.push(Vec::new(alloc))?;
    }
    Ok(groups)
}

/// The children, each in its task's group.
fn grouped<'a>(
    alloc: Global,
    total: usize,
    children: &'a [Child],
) -> Result<Vec<Vec<&'a Child>>, AllocError>
    requires exist { IsTrue (list_all (λ (c : ChildRecord). nat_lt c.task total) children.now) }
    ensures { IfOk result (λ groups. (place : ℕ)
        → slice_index_or (map (λ group. map (λ child. child.now) group.items) groups.items) place [] ≡ children_at children.now place) }
{
    let mut groups = empty_groups(alloc, total)?;
    for child in children {
        groups[child.task as usize].push(child)?;
    }
    Ok(groups)
}
