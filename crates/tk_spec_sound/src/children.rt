ghost use Rattle.std.specs.Prelude.{◌≡◌, ◌≤◌, ◌↔◌, All, IfOk, IsTrue};
ghost use Rattle.tk_types.specs.Limits.{most_combinations};
ghost use Rattle.tk_graph.specs.Results.{task_texts};
ghost use Rattle.tk_vars.specs.Reading.{HasReading};
ghost use Rattle.tk_journal.specs.Names.{possible_of};

use std::alloc::{AllocError, Global};
use tk_child_names::possible_children;
use tk_early::RunValues;
use tk_types::{MOST_COMBINATIONS, PipelineTask};

/// Whether so many children are few.
fn are_few(count: u64) -> bool
    ensures { IsTrue result ↔ (count ≤ most_combinations) }
{
    count <= u64::from(MOST_COMBINATIONS)
}

/// Whether the children that a task of the run may have are few. The only error is want of memory (Tekton, Matrix,
/// Concurrency Control).
pub(crate) fn has_few_children(
    alloc: Global,
    values: &RunValues<'_>,
    task: &PipelineTask,
) -> Result<bool, AllocError>
    requires { All HasReading (task_texts task.now) }
    ensures { IfOk result (λ yes. IsTrue yes ↔ (possible_of values.now task.now ≤ most_combinations)) }
{
    match possible_children(alloc, values, task)? {
        Some(count) => Ok(are_few(count)),
        None => Ok(true),
    }
}
