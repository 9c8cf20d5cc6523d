ghost use Rattle.std.specs.Prelude.{◌≡◌, ◌||◌, [], All, IfOk, Some, flat_map};
ghost use Rattle.tk_types.specs.declared.object.Item.{Item as I};
ghost use Rattle.tk_bind.specs.Readings.{ReadsObject, ReadsTaskSource, ReadsTaskSpec};
ghost use Rattle.tk_resolve.specs.declared.reason.Reason.TheVariants.{CouldntGetTask};
ghost use Rattle.tk_resolve.specs.Asks.{AsksTheSame};
ghost use Rattle.tk_resolve.specs.Due.{step_dues};
ghost use Rattle.tk_resolve.specs.Misuse.{any_lacks};
ghost use Rattle.tk_resolve.specs.Spaces.{has_unbound};
ghost use Rattle.tk_resolve.specs.TaskRun.{body_with, first_reason, no_spec, own_env, resolved_task_run, spec_of, task_run_with};
ghost use Rattle.tk_resolve.specs.Values.{has_missing};

use crate::body_asks::BodyAsks;
use crate::lookup::Earlier;
use crate::questions::any_lacks_value;
use crate::reason::Reason;
use crate::spaces::{has_unbound, own_spaces};
use crate::task_run_spec::{no_spec, spec_of, task_name, task_run_with};
use crate::values::{all_values, has_mismatch, has_missing};
use std::alloc::{AllocError, Global};
use tk_bind::{Env, Lookup, index_of, step_env};
use tk_types::{FirstNamed, List, TaskBody, TaskRunObject, TaskRunSpec, TaskSpec, TryCopy};

/// The body with a spec.
fn body_with(alloc: Global, run: &TaskRunObject, spec: TaskSpec) -> Result<TaskBody, AllocError>
    ensures { IfOk result (λ body. body ≡ body_with run.now spec) }
{
    let bindings = FirstNamed::new(alloc, run.bindings.as_slice())?;
    let bound = own_spaces(alloc, &bindings, spec.spaces.as_slice())?;
    Ok(TaskBody {
        spec,
        task_name: task_name(run).copy(alloc)?,
        outer: List::new(alloc),
        fallback: List::new(alloc),
        bound,
    })
}

/// What the steps of a TaskRun see.
fn own_env(alloc: Global, run: &TaskRunObject, body: &TaskBody) -> Result<Env, AllocError>
    ensures { IfOk result (λ env. env ≡ own_env run.now body.now) }
{
    let wanted = body.spec.params.as_slice();
    let params = all_values(alloc, wanted, run.params.as_slice())?;
    step_env(alloc, body, params)
}

/// Whether a text of a body's steps takes of a parameter what isn't there or isn't due.
fn steps_lack(
    alloc: Global,
    env: &Env,
    body: &TaskBody,
    asks: &BodyAsks<'_>,
) -> Result<bool, AllocError>
    requires body { ReadsTaskSpec body.now.spec }
    requires asks { AsksTheSame (flat_map step_dues body.now.spec.steps) asks.now }
    ensures { IfOk result (λ lack. lack ≡ any_lacks env.now [] (flat_map step_dues body.now.spec.steps)) }
{
    let index = index_of(alloc, env)?;
    let lookup = Lookup::new(&index, &[]);
    let spared = FirstNamed::new(alloc, &[])?;
    any_lacks_value(alloc, &lookup, &spared, asks.as_slice())
}

/// Whether a declared parameter has no value, or a text takes of a parameter what isn't there or isn't due.
fn lacks_parameter(
    alloc: Global,
    run: &TaskRunObject,
    body: &TaskBody,
    asks: &BodyAsks<'_>,
) -> Result<bool, AllocError>
    requires body { ReadsTaskSpec body.now.spec }
    requires asks { AsksTheSame (flat_map step_dues body.now.spec.steps) asks.now }
    ensures { IfOk result (λ lacks. lacks ≡ (has_missing body.now.spec.params run.now.params || any_lacks (own_env run.now body.now) [] (flat_map step_dues body.now.spec.steps))) }
{
    let wanted = body.spec.params.as_slice();
    if has_missing(alloc, wanted, run.params.as_slice())? {
        return Ok(true);
    }
    let env = own_env(alloc, run, body)?;
    steps_lack(alloc, &env, body, asks)
}

/// Whether a declared workspace that isn't optional is bound to nothing.
fn lacks_workspace(alloc: Global, body: &TaskBody) -> Result<bool, AllocError>
    ensures { IfOk result (λ lacks. lacks ≡ has_unbound body.now.bound body.now.spec.spaces) }
{
    let bound = FirstNamed::new(alloc, body.bound.as_slice())?;
    Ok(has_unbound(&bound, body.spec.spaces.as_slice()))
}

/// The first reason why a TaskRun with this body can't start.
fn first_reason(
    alloc: Global,
    run: &TaskRunObject,
    body: &TaskBody,
    asks: &BodyAsks<'_>,
) -> Result<Option<Reason>, AllocError>
    requires body { ReadsTaskSpec body.now.spec }
    requires asks { AsksTheSame (flat_map step_dues body.now.spec.steps) asks.now }
    ensures { IfOk result (λ reason. reason ≡ first_reason run.now body.now) }
{
    if lacks_parameter(alloc, run, body, asks)? {
        return Ok(Some(Reason::ParameterMissing));
    }
    let wanted = body.spec.params.as_slice();
    if has_mismatch(alloc, wanted, run.params.as_slice())? {
        return Ok(Some(Reason::ParameterTypeMismatch));
    }
    if lacks_workspace(alloc, body)? {
        return Ok(Some(Reason::InvalidWorkspaceBindings));
    }
    Ok(None)
}

/// A TaskRun whose Task isn't found.
fn without_task(alloc: Global, run: &TaskRunObject) -> Result<TaskRunSpec, AllocError>
    ensures { IfOk result (λ made. made ≡ task_run_with run.now (body_with run.now no_spec) (Some CouldntGetTask)) }
{
    let body = body_with(alloc, run, no_spec(alloc))?;
    task_run_with(alloc, run, body, Some(Reason::CouldntGetTask))
}

/// A TaskRun whose Task has this spec.
fn with_task(
    alloc: Global,
    earlier: &Earlier<'_>,
    run: &TaskRunObject,
    spec: &TaskSpec,
) -> Result<TaskRunSpec, AllocError>
    requires reads { ReadsTaskSpec spec.now }
    requires source { spec_of earlier.now run.now.source ≡ Some spec.now }
    ensures { IfOk result (λ made. made ≡ task_run_with run.now (body_with run.now spec.now) (first_reason run.now (body_with run.now spec.now))) }
{
    let body = body_with(alloc, run, spec.copy(alloc)?)?;
    let asks = BodyAsks::new(alloc, earlier, &run.source, spec.steps.as_slice(), false)?;
    let reason = first_reason(alloc, run, &body, &asks)?;
    task_run_with(alloc, run, body, reason)
}

/// A standalone TaskRun with all that it refers to. The only error is want of memory.
pub(crate) fn resolve_task(
    alloc: Global,
    run: &TaskRunObject,
    earlier: &Earlier<'_>,
) -> Result<TaskRunSpec, AllocError>
    requires own { ReadsTaskSource run.now.source }
    requires earlier { All (λ (i : I). ReadsObject i.object) earlier.now }
    ensures { IfOk result (λ spec. spec ≡ resolved_task_run earlier.now run.now) }
{
    match spec_of(earlier, &run.source) {
        Some(spec) => with_task(alloc, earlier, run, spec),
        None => without_task(alloc, run),
    }
}
