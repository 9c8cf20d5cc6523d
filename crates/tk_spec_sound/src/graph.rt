ghost use Rattle.std.specs.Prelude.{◌≡◌, ◌≤◌, ◌↔◌, ◌||◌, IfOk, IsTrue, length, not};
ghost use Rattle.std.specs.List.{list_all};
ghost use Rattle.tk_types.specs.Limits.{most_tasks};
ghost use Rattle.tk_types.specs.Lists.{is_empty};
ghost use Rattle.tk_graph.specs.Parents.{IsAcyclic, parent_names};
ghost use Rattle.tk_graph.specs.Unknown.{is_known};
ghost use Rattle.tk_verdict.specs.Gives.{has_entry as has_entry_of};

use std::alloc::{AllocError, Global};
use tk_graph::laws::no_cycle;
use tk_graph::{Names, cycle, unknown_name};
use tk_types::{Matrix, PipelineTask};

/// Whether each parent that a task names is one of these tasks. The only error is want of memory.
pub(crate) fn has_parents(
    alloc: Global,
    names: &Names,
    task: &PipelineTask,
) -> Result<bool, AllocError>
    ensures { IfOk result (λ yes. IsTrue yes ↔ IsTrue (list_all (is_known names.now) (parent_names task.now))) }
{
    Ok(unknown_name(alloc, names, task)?.is_none())
}

/// Whether no task waits for itself. The only error is want of memory.
pub(crate) fn is_acyclic(alloc: Global, tasks: &[PipelineTask]) -> Result<bool, AllocError>
    requires { length tasks.now ≤ most_tasks }
    ensures { IfOk result (λ yes. IsTrue yes ↔ IsAcyclic tasks.now) }
{
    no_cycle();
    Ok(cycle(alloc, tasks)?.is_none())
}

/// Whether a matrix has a list or an include entry.
fn matrix_has_entry(matrix: &Matrix) -> bool
    ensures { result ≡ (not (is_empty matrix.now.params) || not (is_empty matrix.now.include)) }
{
    if !matrix.params.is_empty() {
        return true;
    }
    !matrix.include.is_empty()
}

/// Whether the matrix of a task has a list or an include entry, where there is one.
pub(crate) fn has_entry(task: &PipelineTask) -> bool
    ensures { result ≡ has_entry_of task.now }
{
    match &task.matrix {
        Some(matrix) => matrix_has_entry(matrix),
        None => true,
    }
}
