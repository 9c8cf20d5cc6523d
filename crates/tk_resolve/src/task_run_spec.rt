ghost use Rattle.std.specs.Prelude.{◌≡◌, IfOk, option_copied};
ghost use Rattle.tk_resolve.specs.TaskRun.{no_spec, spec_of, task_name, task_run_with};

use crate::lookup::Earlier;
use crate::reason::{Reason, start_of};
use std::alloc::{AllocError, Global};
use tk_types::{List, TaskBody, TaskRunObject, TaskRunSpec, TaskSource, TaskSpec, Text, TryCopy};

/// The spec that a TaskRun runs: its own, or that of an earlier Task.
pub(crate) fn spec_of<'a>(earlier: &Earlier<'a>, source: &'a TaskSource) -> Option<&'a TaskSpec>
    ensures { option_copied result ≡ spec_of earlier.now source.now }
{
    match source {
        TaskSource::Named(name) => earlier.task(name.as_str()),
        TaskSource::Inlined(spec) => Some(spec),
    }
}

/// The name of a TaskRun's Task: an inlined spec has the TaskRun's.
pub(crate) fn task_name(run: &TaskRunObject) -> &Text
    ensures { result.now ≡ task_name run.now run.now.source }
{
    match &run.source {
        TaskSource::Named(name) => name,
        TaskSource::Inlined(_) => &run.name,
    }
}

/// A spec without anything.
pub(crate) fn no_spec(alloc: Global) -> TaskSpec
    ensures { result ≡ no_spec }
{
    TaskSpec {
        params: List::new(alloc),
        steps: List::new(alloc),
        results: List::new(alloc),
        spaces: List::new(alloc),
    }
}

/// A TaskRun with this body, and why it can't start. The only error is want of memory.
pub(crate) fn task_run_with(
    alloc: Global,
    run: &TaskRunObject,
    body: TaskBody,
    reason: Option<Reason>,
) -> Result<TaskRunSpec, AllocError>
    ensures { IfOk result (λ spec. spec ≡ task_run_with run.now body reason) }
{
    Ok(TaskRunSpec {
        name: run.name.copy(alloc)?,
        body,
        params: run.params.copy(alloc)?,
        retries: run.retries,
        timeout: run.timeout,
        start: start_of(alloc, reason)?,
    })
}
