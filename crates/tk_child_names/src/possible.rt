ghost use Rattle.std.specs.Prelude.{◌≡◌, IfOk, option_map};
ghost use Rattle.std.specs.Option.{ForSome};
ghost use Rattle.tk_bind.specs.Readings.{ReadsMatrix};
ghost use Rattle.tk_early.specs.Possible.{possible_children as possible_of_task, told_count};
ghost use Rattle.tk_child_names.specs.Children.{with_matrix_alone};

use std::alloc::{AllocError, Global};
use tk_early::RunValues;
use tk_types::{List, PipelineTask, TaskSource, Text, TryCopy};

/// A task that has the matrix and the retries of another, and nothing else of it.
fn with_matrix_alone(alloc: Global, task: &PipelineTask) -> Result<PipelineTask, AllocError>
    ensures { IfOk result (λ made. made ≡ with_matrix_alone task.now) }
{
    Ok(PipelineTask {
        name: Text::new(alloc),
        source: TaskSource::Named(Text::new(alloc)),
        params: List::new(alloc),
        matrix: task.matrix.copy(alloc)?,
        run_after: List::new(alloc),
        when: List::new(alloc),
        retries: task.retries,
        timeout: 0,
        ignore_failure: false,
        spaces: List::new(alloc),
    })
}

/// How many children a task of the run may have, where it has a matrix: those of its combinations, and 256 where these
/// are known only in the run. Of the task's texts those of its matrix alone are read, so no others need a reading. The
/// only error is want of memory (Tekton, Matrix, Concurrency Control).
pub fn possible_children(
    alloc: Global,
    values: &RunValues<'_>,
    task: &PipelineTask,
) -> Result<Option<u64>, AllocError>
    requires { ForSome task.now.matrix ReadsMatrix }
    ensures { IfOk result (λ children. children ≡ option_map told_count (possible_of_task values.now task.now)) }
{
    let alone = with_matrix_alone(alloc, task)?;
    values.possible_children(alloc, &alone)
}
