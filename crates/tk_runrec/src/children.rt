ghost use Rattle.std.specs.Prelude.{◌≡◌, option_copied, IfOk};
ghost use Rattle.tk_journal.specs.Names.{child_name_of, index_in_name as index_of_name};
ghost use Rattle.tk_runrec.specs.Tests.{is_closed};

use std::alloc::{AllocError, Global};
use tk_journal::TaskRunState;
use tk_types::{PipelineTask, RunSpec, Text};

/// The index that stands in a child's name, where its task has a matrix.
fn index_in_name(task: &PipelineTask, index: u32) -> Option<u32>
    ensures { result ≡ index_of_name task.now index }
{
    match task.matrix {
        Some(_) => Some(index),
        None => None,
    }
}

/// The name of a child's TaskRun (Tekton, PipelineRuns, Monitoring execution status).
pub fn child_name(alloc: Global, spec: &RunSpec, task: u32, index: u32) -> Result<Text, AllocError>
    ensures { IfOk result (λ name. name ≡ child_name_of spec.now task index) }
{
    match spec.task(task as usize) {
        Some(task) => tk_names::child_name(
            alloc,
            spec.name.as_str(),
            task.name.as_str(),
            index_in_name(task, index),
        ),
        None => Ok(Text::new(alloc)),
    }
}

/// Whether the TaskRun is there and closed.
pub fn has_closed(task_run: Option<&TaskRunState>) -> bool
    ensures { result ≡ is_closed (option_copied task_run.entry) }
{
    let Some(task_run) = task_run else {
        return false;
    };
    task_run.closed.is_some()
}
