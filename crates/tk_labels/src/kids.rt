//! Children in a vector, as changes leave them.

ghost use Rattle.std.specs.Prelude.{◌≡◌, ◌<◌, ◌≤◌, ◌^◌, ◌++◌, None, Some, Contains, length, set, slice_get, take, IfOk, OnErr, OnOk};
ghost use Rattle.std.specs.List.{list_any};
ghost use Rattle.tk_labels.specs.Change.{children_with, runs_at};
ghost use Rattle.tk_labels.specs.Kept.{is_bad as is_bad_child};

use std::alloc::{AllocError, Global};
use tk_types::{Child, List, Outcome, RunSpec, TryCopy};
use tk_verdict::judging::ended_well;

/// Copies of children.
pub(crate) fn copies(alloc: Global, children: &[Child]) -> Result<List<Child>, AllocError>
    ensures { IfOk result (λ made. made ≡ children.now) }
{
    let mut made = List::new(alloc);
    for child in children {
        made.push(child.copy(alloc)?)?;
    }
    Ok(made)
}

/// Adds children of a task with these outcomes, with indexes from 0 in order. Where memory is wanting, some of them may
/// stand behind the others.
pub(crate) fn add(
    alloc: Global,
    children: &mut Vec<Child>,
    task: u32,
    outcomes: &[Option<Outcome>],
) -> Result<(), AllocError>
    requires few { length outcomes.now ≤ 2 ^ 32 }
    ensures ok { OnOk result (children.new.items ≡ children.old.items ++ children_with task outcomes.now) }
    ensures err { OnErr result (take (length children.old.items) children.new.items ≡ children.old.items) }
{
    for (index, outcome) in outcomes.iter().enumerate() {
        children.push(Child {
            task,
            index: index as u32,
            outcome: outcome.copy(alloc)?,
        })?;
    }
    Ok(())
}

/// Whether a child is that of a task and an index, and runs.
fn is_running_at(child: &Child, task: u32, index: u32) -> bool
    ensures { result ≡ runs_at task index child.now }
{
    child.task == task && child.index == index && child.outcome.is_none()
}

/// Where the child of a task and an index stands that runs.
pub(crate) fn place_of(children: &[Child], task: u32, index: u32) -> usize
    requires { Contains children.now (record { task = task; index = index; outcome = None }) }
    ensures { slice_get children.now result ≡ Some (record { task = task; index = index; outcome = None }) }
{
    for (place, child) in children.iter().enumerate() {
        if is_running_at(child, task, index) {
            return place;
        }
    }
    unreachable!()
}

/// Puts a child with this outcome in the place of another.
pub(crate) fn put(
    children: &mut Vec<Child>,
    place: usize,
    task: u32,
    index: u32,
    outcome: Option<Outcome>,
)
    requires { place < length children.old.items }
    ensures { children.new.items ≡ set children.old.items place (record { task = task; index = index; outcome = outcome }) }
{
    children[place] = Child {
        task,
        index,
        outcome,
    };
}

/// Whether a child's task is one of `tasks`, and it ended and isn't good for it.
fn is_bad(spec: &RunSpec, child: &Child) -> bool
    ensures { result ≡ is_bad_child spec.now child.now }
{
    match spec.tasks.as_slice().get(child.task as usize) {
        None => false,
        Some(task) => child.outcome.is_some() && !ended_well(child, task.ignore_failure),
    }
}

/// Whether one of the children is so.
pub(crate) fn any_bad(spec: &RunSpec, children: &[Child]) -> bool
    ensures { result ≡ list_any (is_bad_child spec.now) children.now }
{
    children.iter().any(|child| is_bad(spec, child))
}
