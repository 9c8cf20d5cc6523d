ghost use Rattle.tk_types.specs.Rejected.{Reads};
ghost use Rattle.tk_validate.specs.Parts.{on_each_task, on_inlined, on_pipeline, on_pipeline_source, on_task_spec};

use crate::rule::{Checked, Rule, check_all};
use std::alloc::Global;
use tk_types::{
    ItemObject, Location, PipelineSource, PipelineSpec, PipelineTask, TaskSource, TaskSpec,
};

/// Refuses the first task of a pipeline with which something is wrong, those of `finally` too.
pub(crate) fn check_tasks<R: Rule<PipelineTask>>(
    alloc: Global,
    rule: &R,
    spec: &PipelineSpec,
    place: &Location<'_>,
) -> Checked
    ensures { Reads (on_each_task (λ is_last. R.finding rule.now) place.now spec.now) tt result }
{
    check_all(alloc, rule, spec.tasks.as_slice(), place, "tasks")?;
    check_all(alloc, rule, spec.finally.as_slice(), place, "finally")
}

/// Refuses the spec in a task or in a TaskRun, if something is wrong with it.
pub(crate) fn check_inlined<R: Rule<TaskSpec>>(
    alloc: Global,
    rule: &R,
    source: &TaskSource,
    place: &Location<'_>,
) -> Checked
    ensures { Reads (on_inlined (R.finding rule.now) place.now source.now) tt result }
{
    match source {
        TaskSource::Inlined(spec) => rule.check(alloc, spec, &place.key("taskSpec")),
        TaskSource::Named(_) => Ok(()),
    }
}

/// Refuses an object's own Task spec, if something is wrong with it.
pub(crate) fn check_task_spec<R: Rule<TaskSpec>>(
    alloc: Global,
    rule: &R,
    object: &ItemObject,
    place: &Location<'_>,
) -> Checked
    ensures { Reads (on_task_spec (R.finding rule.now) place.now object.now) tt result }
{
    match object {
        ItemObject::Task { spec, .. } => rule.check(alloc, spec, place),
        ItemObject::TaskRun(run) => check_inlined(alloc, rule, &run.source, place),
        _ => Ok(()),
    }
}

/// Refuses a run's pipeline, if something is wrong with it.
fn check_source<R: Rule<PipelineSpec>>(
    alloc: Global,
    rule: &R,
    source: &PipelineSource,
    place: &Location<'_>,
) -> Checked
    ensures { Reads (on_pipeline_source (R.finding rule.now) place.now source.now) tt result }
{
    match source {
        PipelineSource::Inlined(spec) => rule.check(alloc, spec, &place.key("pipelineSpec")),
        PipelineSource::Named(_) => Ok(()),
    }
}

/// Refuses an object's pipeline, if something is wrong with it.
pub(crate) fn check_pipeline<R: Rule<PipelineSpec>>(
    alloc: Global,
    rule: &R,
    object: &ItemObject,
    place: &Location<'_>,
) -> Checked
    ensures { Reads (on_pipeline (R.finding rule.now) place.now object.now) tt result }
{
    match object {
        ItemObject::Pipeline { spec, .. } => rule.check(alloc, spec, place),
        ItemObject::PipelineRun(run) => check_source(alloc, rule, &run.source, place),
        _ => Ok(()),
    }
}
