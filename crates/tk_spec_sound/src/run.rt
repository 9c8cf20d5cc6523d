ghost use Rattle.std.specs.Prelude.{◌≡◌, ◌≤◌, ◌+◌, ◌↔◌, All, IfOk, IsTrue, Some, length};
ghost use Rattle.tk_types.specs.Behaviour.{tasks_of};
ghost use Rattle.tk_types.specs.Limits.{most_tasks};
ghost use Rattle.tk_types.specs.declared.object.Asked.{Asked as A};
ghost use Rattle.tk_journal.specs.Lists.{IsThere};
ghost use Rattle.tk_journal.specs.Sound.{IsSoundRun, longest_duration};
ghost use Rattle.tk_journal.specs.Stops.{asked_stop};
ghost use Rattle.tk_spec_sound.specs.Parts.{AreSoundParts, IsSoundHead, IsSoundTask, IsSoundWhole};

use crate::graph::is_acyclic;
use crate::limits::{has_few_tasks, has_one_body_each, is_short};
use crate::names::{is_name, names_differ};
use crate::steps::are_sound_bodies;
use crate::task::are_sound_tasks;
use crate::texts::params_read;
use std::alloc::{AllocError, Global};
use tk_early::RunValues;
use tk_graph::Names;
use tk_names::is_object_name;
use tk_types::{Asked, RunSpec, Stop};

/// The stop that this asks for.
fn stop_of(status: Asked) -> Option<Stop>
    ensures { result ≡ asked_stop status }
{
    match status {
        Asked::StoppedRunFinally => Some(Stop::StoppedRunFinally),
        Asked::CancelledRunFinally => Some(Stop::CancelledRunFinally),
        Asked::Cancelled => Some(Stop::Cancelled),
        Asked::Start | Asked::TaskRunCancelled => None,
    }
}

/// Whether this asks for a stop.
fn stops(status: Asked) -> bool
    ensures { IsTrue result ↔ IsThere (asked_stop status) }
{
    stop_of(status).is_some()
}

/// Whether a run is asked for nothing but a stop.
fn asks_stop(asked: &Option<Asked>) -> bool
    ensures { IsTrue result ↔ ((status : A) → asked.now ≡ Some status → IsThere (asked_stop status)) }
{
    match *asked {
        Some(status) => stops(status),
        None => true,
    }
}

/// Whether the timeouts of a run are a year at most.
fn has_short_timeouts(spec: &RunSpec) -> bool
    ensures { IsTrue result ↔ ((spec.now.pipeline_ms ≤ longest_duration) × (spec.now.tasks_ms ≤ longest_duration) × (spec.now.finally_ms ≤ longest_duration)) }
{
    if !is_short(spec.pipeline_ms) {
        return false;
    }
    if !is_short(spec.tasks_ms) {
        return false;
    }
    is_short(spec.finally_ms)
}

/// Whether a run has this name, which may name an object, is asked for nothing but a stop, and has short timeouts and as
/// many tasks and bodies as it may.
fn has_sound_head(name: &str, asked: &Option<Asked>, spec: &RunSpec) -> bool
    ensures { IsTrue result ↔ IsSoundHead name.now asked.now spec.now }
{
    if !is_name(&spec.name, name) {
        return false;
    }
    if !is_object_name(name) {
        return false;
    }
    if !asks_stop(asked) {
        return false;
    }
    if !has_short_timeouts(spec) {
        return false;
    }
    if !has_few_tasks(spec) {
        return false;
    }
    has_one_body_each(spec)
}

/// Whether the names of a run's tasks differ and no task waits for itself.
fn is_sound_whole(alloc: Global, spec: &RunSpec) -> Result<bool, AllocError>
    requires { length spec.now.tasks + length spec.now.finally ≤ most_tasks }
    ensures { IfOk result (λ yes. IsTrue yes ↔ IsSoundWhole spec.now) }
{
    if !names_differ(alloc, spec)? {
        return Ok(false);
    }
    is_acyclic(alloc, spec.tasks.as_slice())
}

/// Whether each task of a run, those of `finally` too, keeps the rules that are asked of each.
fn has_sound_tasks(alloc: Global, spec: &RunSpec) -> Result<bool, AllocError>
    requires { length spec.now.tasks + length spec.now.finally ≤ most_tasks }
    ensures { IfOk result (λ yes. IsTrue yes ↔ All (IsSoundTask spec.now) (tasks_of spec.now)) }
{
    let names = Names::new(alloc, spec.tasks.as_slice())?;
    let values = RunValues::new(alloc, spec)?;
    if !are_sound_tasks(alloc, &names, &values, spec.tasks.as_slice())? {
        return Ok(false);
    }
    are_sound_tasks(alloc, &names, &values, spec.finally.as_slice())
}

/// Whether each task, each body and each result of a run keeps the rules that are asked of each.
fn are_sound_parts(alloc: Global, spec: &RunSpec) -> Result<bool, AllocError>
    requires { length spec.now.tasks + length spec.now.finally ≤ most_tasks }
    ensures { IfOk result (λ yes. IsTrue yes ↔ AreSoundParts spec.now) }
{
    if !has_sound_tasks(alloc, spec)? {
        return Ok(false);
    }
    if !are_sound_bodies(alloc, &spec.start, spec.bodies.as_slice())? {
        return Ok(false);
    }
    params_read(alloc, spec.results.as_slice())
}

/// Whether an admitted PipelineRun is sound. The only error is want of memory.
pub(crate) fn is_sound_run(
    alloc: Global,
    name: &str,
    asked: &Option<Asked>,
    spec: &RunSpec,
) -> Result<bool, AllocError>
    ensures { IfOk result (λ yes. IsTrue yes ↔ IsSoundRun name.now asked.now spec.now) }
{
    if !has_sound_head(name, asked, spec) {
        return Ok(false);
    }
    if !is_sound_whole(alloc, spec)? {
        return Ok(false);
    }
    are_sound_parts(alloc, spec)
}
