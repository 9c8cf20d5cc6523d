ghost use Rattle.std.specs.Prelude.{◌≡◌, ◌++◌, All, OnOk, map};
ghost use Rattle.tk_types.specs.First.{first_of};
ghost use Rattle.tk_types.specs.Rejected.{Reads};
ghost use Rattle.tk_bind.specs.Readings.{ReadsPipelineTask};
ghost use Rattle.tk_types.specs.Behaviour.{tasks_of};
ghost use Rattle.tk_admit.specs.Objects.{task_oversize};
ghost use Rattle.tk_admit.specs.Sound.{HasFewChildren};

use std::alloc::Global;
use tk_early::RunValues;
use tk_early::laws::few_children;
use tk_types::{
    Detail, Fault, Location, MOST_COMBINATIONS, PipelineTask, Place, Rejected, RunSpec, told,
};

/// Refuses a task whose settled matrix has too many combinations.
fn check_task(
    alloc: Global,
    values: &RunValues<'_>,
    place: &Place,
    task: &PipelineTask,
) -> Result<(), Rejected>
    requires { ReadsPipelineTask task.now }
    ensures found { Reads (task_oversize place.now values.now task.now) tt result }
    ensures few { OnOk result (HasFewChildren values.now task.now) }
{
    few_children();
    match values.settled_count(alloc, task)? {
        Some(count) if u64::from(MOST_COMBINATIONS) < count => {
            let detail = Detail::Sizes {
                limit: u64::from(MOST_COMBINATIONS),
                count,
            };
            Err(told(alloc, Fault::TOO_LARGE, &Location::of(place), detail))
        }
        _ => Ok(()),
    }
}

/// The same of each task.
fn check_tasks(
    alloc: Global,
    values: &RunValues<'_>,
    place: &Place,
    tasks: &[PipelineTask],
) -> Result<(), Rejected>
    requires { All ReadsPipelineTask tasks.now }
    ensures found { Reads (first_of (map (task_oversize place.now values.now) tasks.now)) tt result }
    ensures few { OnOk result (All (HasFewChildren values.now) tasks.now) }
{
    for task in tasks {
        check_task(alloc, values, place, task)?;
    }
    Ok(())
}

/// The same of the tasks of a run: those of `tasks`, then those of `finally`.
fn check_both(
    alloc: Global,
    values: &RunValues<'_>,
    place: &Place,
    tasks: &[PipelineTask],
    finally: &[PipelineTask],
) -> Result<(), Rejected>
    requires { All ReadsPipelineTask (tasks.now ++ finally.now) }
    ensures found { Reads (first_of (map (task_oversize place.now values.now) (tasks.now ++ finally.now))) tt result }
    ensures few { OnOk result (All (HasFewChildren values.now) (tasks.now ++ finally.now)) }
{
    check_tasks(alloc, values, place, tasks)?;
    check_tasks(alloc, values, place, finally)
}

/// Refuses a PipelineRun with a settled matrix of too many combinations.
pub(crate) fn check_run(alloc: Global, place: &Place, spec: &RunSpec) -> Result<(), Rejected>
    requires { All ReadsPipelineTask (tasks_of spec.now) }
    ensures found { Reads (first_of (map (task_oversize place.now spec.now) (tasks_of spec.now))) tt result }
    ensures few { OnOk result (All (HasFewChildren spec.now) (tasks_of spec.now)) }
{
    let values = RunValues::new(alloc, spec)?;
    check_both(
        alloc,
        &values,
        place,
        spec.tasks.as_slice(),
        spec.finally.as_slice(),
    )
}
