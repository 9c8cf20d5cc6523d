ghost use Rattle.std.specs.Prelude.{false};
ghost use Rattle.tk_types.specs.Rejected.{Reads};
ghost use Rattle.tk_validate.specs.Sizes.{over, pipeline_within, retries_within, sizes, steps_within, task_within};

use crate::parts::{check_inlined, check_pipeline, check_task_spec, check_tasks};
use crate::rule::{Checked, Rule};
use std::alloc::Global;
use tk_types::{
    Detail, Fault, ItemObject, Location, MOST_RETRIES, MOST_STEPS, MOST_TASKS, PipelineSpec,
    PipelineTask, TaskSpec, told,
};

/// Refuses a count over its limit.
fn check_count(alloc: Global, limit: u64, count: u64, place: &Location<'_>) -> Checked
    ensures { Reads (over limit place.now count) tt result }
{
    if count > limit {
        return Err(told(
            alloc,
            Fault::TOO_LARGE,
            place,
            Detail::Sizes { limit, count },
        ));
    }
    Ok(())
}

/// Refuses more than 100 retries.
fn check_retries(alloc: Global, retries: u32, place: &Location<'_>) -> Checked
    ensures { Reads (retries_within place.now retries) tt result }
{
    check_count(
        alloc,
        u64::from(MOST_RETRIES),
        retries as u64,
        &place.key("retries"),
    )
}

/// What is too large: more than 32 steps, 100 retries, or 5,000 tasks, those of `finally` too.
#[derive(Drop)]
struct Sizes;

impl Rule<TaskSpec> for Sizes {
    ghost finding = { λ rule. steps_within };

    fn check(&self, alloc: Global, spec: &TaskSpec, place: &Location<'_>) -> Checked {
        check_count(
            alloc,
            MOST_STEPS as u64,
            spec.steps.len() as u64,
            &place.key("steps"),
        )
    }
}

impl Rule<PipelineTask> for Sizes {
    ghost finding = { λ rule. task_within false };

    fn check(&self, alloc: Global, task: &PipelineTask, place: &Location<'_>) -> Checked {
        check_inlined(alloc, self, &task.source, place)?;
        check_retries(alloc, task.retries, place)
    }
}

impl Rule<PipelineSpec> for Sizes {
    ghost finding = { λ rule. pipeline_within };

    #[tactic(auto, unfolding(crate::specs::Sizes::pipeline_within))]
    fn check(&self, alloc: Global, spec: &PipelineSpec, place: &Location<'_>) -> Checked {
        let count = spec.tasks.as_slice().len() as u64 + spec.finally.as_slice().len() as u64;
        check_count(alloc, MOST_TASKS as u64, count, &place.key("tasks"))?;
        check_tasks(alloc, self, spec, place)
    }
}

/// Refuses what is too large in an object whose spec stands at a place: the tasks of a pipeline, the steps of a Task,
/// or retries.
pub fn check_sizes(alloc: Global, object: &ItemObject, place: &Location<'_>) -> Checked
    ensures { Reads (sizes place.now object.now) tt result }
{
    check_pipeline(alloc, &Sizes, object, place)?;
    check_task_spec(alloc, &Sizes, object, place)?;
    match object {
        ItemObject::TaskRun(run) => check_retries(alloc, run.retries, place),
        _ => Ok(()),
    }
}
