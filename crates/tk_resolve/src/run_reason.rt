ghost use Rattle.std.specs.Prelude.{◌≡◌, ◌++◌, All, Some, IfOk, flat_map};
ghost use Rattle.std.specs.List.{list_any};
ghost use Rattle.tk_types.specs.declared.task.TaskBody.{TaskBody as BodyRecord};
ghost use Rattle.tk_bind.specs.Readings.{ReadsPipelineSpec, ReadsPipelineTask, ReadsTaskSpec};
ghost use Rattle.tk_resolve.specs.declared.due.Due.TheVariants.{AnyValue};
ghost use Rattle.tk_resolve.specs.Due.{params_dues, task_dues};
ghost use Rattle.tk_resolve.specs.Misuse.{any_misuse};
ghost use Rattle.tk_resolve.specs.Run.{all_tasks, bodies_of, first_reason, lacks_parameter, lacks_workspace, misuses_result};
ghost use Rattle.tk_resolve.specs.Spaces.{has_unbound};
ghost use Rattle.tk_resolve.specs.Values.{all_values, has_mismatch};

use crate::admission::Admission;
use crate::due::{result_dues, task_dues};
use crate::lookup::Earlier;
use crate::misuse::{Declarer, any_misuse, declarers};
use crate::reason::Reason;
use crate::spaces::has_unbound;
use crate::values::has_mismatch;
use std::alloc::{AllocError, Global};
use std::marker::Model;
use tk_types::{
    FirstNamed, Param, PipelineSpec, PipelineTask, RunObject, Space, SpaceSpec, TaskBody,
};

/// Whether a text of a task misuses a result.
fn task_misuses(
    alloc: Global,
    declarers: &FirstNamed<'_, Declarer<'_>>,
    task: &PipelineTask,
) -> Result<bool, AllocError>
    requires { ReadsPipelineTask task.now }
    ensures { IfOk result (λ misuses. misuses ≡ any_misuse declarers.now (task_dues task.now)) }
{
    let texts = task_dues(alloc, task)?;
    any_misuse(alloc, declarers, texts.as_slice())
}

/// Whether a text of some task does.
fn tasks_misuse(
    alloc: Global,
    declarers: &FirstNamed<'_, Declarer<'_>>,
    tasks: &[PipelineTask],
) -> Result<bool, AllocError>
    requires { All ReadsPipelineTask tasks.now }
    ensures { IfOk result (λ misuse. misuse ≡ any_misuse declarers.now (flat_map task_dues tasks.now)) }
{
    for task in tasks {
        if task_misuses(alloc, declarers, task)? {
            return Ok(true);
        }
    }
    Ok(false)
}

/// Whether a text of a task or of a result of the Pipeline does.
fn pipeline_misuses(
    alloc: Global,
    declarers: &FirstNamed<'_, Declarer<'_>>,
    pipeline: &PipelineSpec,
) -> Result<bool, AllocError>
    requires { ReadsPipelineSpec pipeline.now }
    ensures { IfOk result (λ misuses. misuses ≡ any_misuse declarers.now (flat_map task_dues (all_tasks pipeline.now) ++ params_dues AnyValue pipeline.now.results)) }
{
    if tasks_misuse(alloc, declarers, pipeline.tasks.as_slice())? {
        return Ok(true);
    }
    if tasks_misuse(alloc, declarers, pipeline.finally.as_slice())? {
        return Ok(true);
    }
    let texts = result_dues(alloc, pipeline.results.as_slice())?;
    any_misuse(alloc, declarers, texts.as_slice())
}

/// Whether one of these workspaces that isn't optional is bound to nothing.
fn is_any_unbound(alloc: Global, bound: &[Space], wanted: &[SpaceSpec]) -> Result<bool, AllocError>
    ensures { IfOk result (λ has. has ≡ has_unbound bound.now wanted.now) }
{
    let bound = FirstNamed::new(alloc, bound)?;
    Ok(has_unbound(&bound, wanted))
}

/// Whether a workspace of the Pipeline or of a Task that isn't optional is bound to nothing.
fn lacks_workspace(
    alloc: Global,
    run: &RunObject,
    pipeline: &PipelineSpec,
    bodies: &[TaskBody],
) -> Result<bool, AllocError>
    ensures { IfOk result (λ lacks. lacks ≡ lacks_workspace run.now pipeline.now bodies.now) }
{
    if is_any_unbound(alloc, run.bindings.as_slice(), pipeline.spaces.as_slice())? {
        return Ok(true);
    }
    for body in bodies {
        if is_any_unbound(alloc, body.bound.as_slice(), body.spec.spaces.as_slice())? {
            return Ok(true);
        }
    }
    Ok(false)
}

/// A run whose Pipeline and Tasks are found. A contract sees the run, the Pipeline and the bodies.
#[derive(Drop)]
struct Candidate<'a> {
    run: &'a RunObject,
    pipeline: &'a PipelineSpec,
    bodies: &'a [TaskBody],
    tasks: Vec<Declarer<'a>>,
    admission: Admission<'a>,
}

impl<'a> Model for Candidate<'a> {
    ghost use Rattle.std.specs.Prelude.{◌≡◌, List as Items};
    ghost use Rattle.std.specs.List.{zip};
    ghost use Rattle.tk_types.specs.declared.object.PipelineSpec.{PipelineSpec};
    ghost use Rattle.tk_types.specs.declared.object.RunObject.{RunObject};
    ghost use Rattle.tk_types.specs.declared.task.TaskBody.{TaskBody};
    ghost use Rattle.tk_resolve.specs.Run.{all_tasks};

    ghost Value = { RunObject × PipelineSpec × Items TaskBody };

    ghost view = { λ candidate. (candidate.run.now, candidate.pipeline.now, candidate.bodies.now) };

    ghost invariant = { λ candidate. (candidate.tasks.items ≡ zip (all_tasks candidate.pipeline.now) candidate.bodies.now)
        × (candidate.admission ≡ (candidate.run.now, candidate.pipeline.now)) };
}

impl<'a> Candidate<'a> {
    /// A run with its Pipeline and bodies, whose parameters take these values.
    fn new(
        alloc: Global,
        run: &'a RunObject,
        pipeline: &'a PipelineSpec,
        bodies: &'a [TaskBody],
        values: &'a [Param],
    ) -> Result<Self, AllocError>
        requires { values.now ≡ all_values pipeline.now.params run.now.params }
        ensures { IfOk result (λ candidate. candidate ≡ (run.now, pipeline.now, bodies.now)) }
    {
        Ok(Candidate {
            run,
            pipeline,
            bodies,
            tasks: declarers(alloc, pipeline, bodies)?,
            admission: Admission::new(alloc, run, pipeline, values)?,
        })
    }

    /// Whether a needed parameter is missing.
    fn lacks_parameter(&self, alloc: Global, earlier: &Earlier<'_>) -> Result<bool, AllocError>
        requires found { bodies_of earlier.now self.now.0 self.now.1 ≡ Some self.now.2 }
        requires pipeline { ReadsPipelineSpec self.now.1 }
        requires bodies { All (λ (body : BodyRecord). ReadsTaskSpec body.spec) self.now.2 }
        ensures { IfOk result (λ lacks. lacks ≡ lacks_parameter self.now.0 self.now.1 self.now.2) }
    {
        self.admission
            .lacks_parameter(alloc, earlier, self.tasks.as_slice())
    }

    /// Whether a given value has another type than its parameter.
    fn has_mismatch(&self, alloc: Global) -> Result<bool, AllocError>
        ensures { IfOk result (λ has. has ≡ has_mismatch self.now.1.params self.now.0.params) }
    {
        let wanted = self.pipeline.params.as_slice();
        has_mismatch(alloc, wanted, self.run.params.as_slice())
    }

    /// Whether a result of a task is misused by a task or by a result of the Pipeline.
    fn misuses_result(&self, alloc: Global) -> Result<bool, AllocError>
        requires { ReadsPipelineSpec self.now.1 }
        ensures { IfOk result (λ misuses. misuses ≡ misuses_result self.now.1 self.now.2) }
    {
        let declarers = FirstNamed::new(alloc, self.tasks.as_slice())?;
        pipeline_misuses(alloc, &declarers, self.pipeline)
    }

    /// Whether a workspace that isn't optional is bound to nothing.
    fn lacks_workspace(&self, alloc: Global) -> Result<bool, AllocError>
        ensures { IfOk result (λ lacks. lacks ≡ lacks_workspace self.now.0 self.now.1 self.now.2) }
    {
        lacks_workspace(alloc, self.run, self.pipeline, self.bodies)
    }

    /// The first reason why it can't start.
    fn first_reason(
        &self,
        alloc: Global,
        earlier: &Earlier<'_>,
    ) -> Result<Option<Reason>, AllocError>
        requires found { bodies_of earlier.now self.now.0 self.now.1 ≡ Some self.now.2 }
        requires pipeline { ReadsPipelineSpec self.now.1 }
        requires bodies { All (λ (body : BodyRecord). ReadsTaskSpec body.spec) self.now.2 }
        ensures { IfOk result (λ reason. reason ≡ first_reason self.now.0 self.now.1 self.now.2) }
    {
        if self.lacks_parameter(alloc, earlier)? {
            return Ok(Some(Reason::ParameterMissing));
        }
        if self.has_mismatch(alloc)? {
            return Ok(Some(Reason::ParameterTypeMismatch));
        }
        if self.misuses_result(alloc)? {
            return Ok(Some(Reason::InvalidTaskResultReference));
        }
        if self.lacks_workspace(alloc)? {
            return Ok(Some(Reason::InvalidWorkspaceBindings));
        }
        Ok(None)
    }
}

/// The first reason why a run whose Pipeline and Tasks are found can't start, where its parameters take these values:
/// a parameter is missing, a given value has another type, a result is misused, a workspace is bound to nothing. The
/// only error is want of memory.
pub(crate) fn first_reason(
    alloc: Global,
    earlier: &Earlier<'_>,
    run: &RunObject,
    pipeline: &PipelineSpec,
    bodies: &[TaskBody],
    values: &[Param],
) -> Result<Option<Reason>, AllocError>
    requires found { bodies_of earlier.now run.now pipeline.now ≡ Some bodies.now }
    requires pipeline { ReadsPipelineSpec pipeline.now }
    requires bodies { All (λ (body : BodyRecord). ReadsTaskSpec body.spec) bodies.now }
    requires values { values.now ≡ all_values pipeline.now.params run.now.params }
    ensures { IfOk result (λ reason. reason ≡ first_reason run.now pipeline.now bodies.now) }
{
    let candidate = Candidate::new(alloc, run, pipeline, bodies, values)?;
    candidate.first_reason(alloc, earlier)
}
