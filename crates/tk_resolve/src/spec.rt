ghost use Rattle.std.specs.Prelude.{◌≡◌, IfOk, option_copied};
ghost use Rattle.tk_resolve.specs.Run.{pipeline_name, pipeline_of, startable, unstartable};

use crate::lookup::Earlier;
use crate::reason::{Reason, start_of};
use crate::timeouts::{finally_ms, pipeline_ms, tasks_ms};
use std::alloc::{AllocError, Global};
use tk_types::{
    List, Param, PipelineSource, PipelineSpec, RunObject, RunSpec, Start, TaskBody, Text, TryCopy,
};

/// The name of a run's Pipeline: an inlined spec has the run's name.
pub(crate) fn pipeline_name(run: &RunObject) -> &Text
    ensures { result.now ≡ pipeline_name run.now run.now.source }
{
    match &run.source {
        PipelineSource::Named(name) => name,
        PipelineSource::Inlined(_) => &run.name,
    }
}

/// The spec that a run runs: its own, or that of an earlier Pipeline.
pub(crate) fn pipeline_of<'a>(
    earlier: &Earlier<'a>,
    source: &'a PipelineSource,
) -> Option<&'a PipelineSpec>
    ensures { option_copied result ≡ pipeline_of earlier.now source.now }
{
    match source {
        PipelineSource::Named(name) => earlier.pipeline(name.as_str()),
        PipelineSource::Inlined(spec) => Some(spec),
    }
}

/// A run that can't start, with these parameters: it has no tasks. The only error is want of memory.
pub(crate) fn unstartable(
    alloc: Global,
    run: &RunObject,
    params: List<Param>,
    reason: Reason,
) -> Result<RunSpec, AllocError>
    ensures { IfOk result (λ spec. spec ≡ unstartable run.now params reason) }
{
    Ok(RunSpec {
        name: run.name.copy(alloc)?,
        pipeline: pipeline_name(run).copy(alloc)?,
        params,
        tasks: List::new(alloc),
        finally: List::new(alloc),
        bodies: List::new(alloc),
        results: List::new(alloc),
        pipeline_ms: pipeline_ms(run.timeouts),
        tasks_ms: tasks_ms(run.timeouts),
        finally_ms: finally_ms(run.timeouts),
        start: start_of(alloc, Some(reason))?,
    })
}

/// A run that can start, with these parameters and bodies. The only error is want of memory.
pub(crate) fn startable(
    alloc: Global,
    run: &RunObject,
    pipeline: &PipelineSpec,
    params: List<Param>,
    bodies: List<TaskBody>,
) -> Result<RunSpec, AllocError>
    ensures { IfOk result (λ spec. spec ≡ startable run.now pipeline.now params bodies) }
{
    Ok(RunSpec {
        name: run.name.copy(alloc)?,
        pipeline: pipeline_name(run).copy(alloc)?,
        params,
        tasks: pipeline.tasks.copy(alloc)?,
        finally: pipeline.finally.copy(alloc)?,
        bodies,
        results: pipeline.results.copy(alloc)?,
        pipeline_ms: pipeline_ms(run.timeouts),
        tasks_ms: tasks_ms(run.timeouts),
        finally_ms: finally_ms(run.timeouts),
        start: Start::Ready,
    })
}
