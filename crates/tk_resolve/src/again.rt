ghost use Rattle.std.specs.Prelude.{◌≡◌, ℕ, List as L, All, IfOk, IsTrue, Some};
ghost use Rattle.std.specs.Option.{ForSome};
ghost use Rattle.tk_types.specs.declared.object.Item.{Item as I};
ghost use Rattle.tk_types.specs.declared.object.PipelineSource.TheVariants.{Named};
ghost use Rattle.tk_types.specs.declared.run.RunSpec.{RunSpec as S};
ghost use Rattle.tk_types.specs.declared.run.Start.TheVariants.{Ready};
ghost use Rattle.tk_bind.specs.Readings.{ReadsObject, ReadsPipelineSource};
ghost use Rattle.tk_resolve.specs.Known.{AreGivenAlike, IsKnownRun, IsSingle, RunsTask};
ghost use Rattle.tk_resolve.specs.Lookup.{pipeline_named};
ghost use Rattle.tk_resolve.specs.Run.{all_tasks, bodies_of, resolved_run, startable};
ghost use Rattle.tk_resolve.specs.Values.{all_values};

use crate::alike::are_given_alike;
use crate::bodies::bodies_of;
use crate::known_run::{KnownRun, are_named, are_single};
use crate::resolver::Resolver;
use crate::run::resolve_run;
use crate::spec::startable;
use crate::values::all_values;
use std::alloc::{AllocError, Global};
use tk_types::{List, PipelineSource, PipelineSpec, RunObject, RunSpec, Start, TaskBody, TryCopy};

/// A run that can start, with these bodies.
fn started_with(
    alloc: Global,
    run: &RunObject,
    pipeline: &PipelineSpec,
    bodies: &List<TaskBody>,
) -> Result<RunSpec, AllocError>
    ensures { IfOk result (λ spec. spec ≡ startable run.now pipeline.now (all_values pipeline.now.params run.now.params) bodies.now) }
{
    let params = all_values(alloc, pipeline.params.as_slice(), run.params.as_slice())?;
    startable(alloc, run, pipeline, params, bodies.copy(alloc)?)
}

/// Whether each of the tasks of a Pipeline runs an earlier Task.
fn is_alone(pipeline: &PipelineSpec) -> bool
    ensures { IsTrue result → All RunsTask (all_tasks pipeline.now) }
{
    are_named(pipeline.tasks.as_slice()) && are_named(pipeline.finally.as_slice())
}

/// Whether none of the tasks of a Pipeline has a matrix.
fn is_single(pipeline: &PipelineSpec) -> bool
    ensures { IsTrue result → All IsSingle (all_tasks pipeline.now) }
{
    are_single(pipeline.tasks.as_slice()) && are_single(pipeline.finally.as_slice())
}

impl<'a> Resolver<'a> {
    /// The bodies of a run that is given alike as a known one of its Pipeline, if they are found.
    fn bodies_again(
        &self,
        alloc: Global,
        known: &KnownRun<'a>,
        run: &RunObject,
        pipeline: &PipelineSpec,
    ) -> Result<Option<List<TaskBody>>, AllocError>
        requires known { (name : L ℕ) × IsKnownRun self.now name known.now × (pipeline_named self.now name ≡ Some pipeline.now) }
        requires alike { AreGivenAlike known.now.run.now run.now }
        ensures { IfOk result (λ bodies. bodies_of self.now run.now pipeline.now ≡ bodies) }
    {
        if known.has_bodies_of(run) {
            return Ok(Some(known.bodies.copy(alloc)?));
        }
        bodies_of(alloc, &self.earlier, run, pipeline)
    }

    /// A run that is given alike as a known one of its Pipeline: it can start, and its values aren't judged.
    fn again(&self, alloc: Global, run: &RunObject) -> Result<Option<RunSpec>, AllocError>
        ensures { IfOk result (λ spec. ForSome spec (λ (s : S). s ≡ resolved_run self.now run.now)) }
    {
        let PipelineSource::Named(name) = &run.source else {
            return Ok(None);
        };
        let Some(known) = self.known.get(name.as_str()) else {
            return Ok(None);
        };
        let Some(pipeline) = self.earlier.pipeline(name.as_str()) else {
            return Ok(None);
        };
        if !are_given_alike(known.run, run) {
            return Ok(None);
        }
        match self.bodies_again(alloc, known, run, pipeline)? {
            Some(bodies) => Ok(Some(started_with(alloc, run, pipeline, &bodies)?)),
            None => Ok(None),
        }
    }

    /// Keeps a run that can start, if it names a Pipeline without a matrix.
    fn learn(&mut self, alloc: Global, run: &'a RunObject, spec: &RunSpec) -> Result<(), AllocError>
        requires { spec.now ≡ resolved_run self.old run.now }
        ensures { self.new ≡ self.old }
    {
        let PipelineSource::Named(name) = &run.source else {
            return Ok(());
        };
        let Some(pipeline) = self.earlier.pipeline(name.as_str()) else {
            return Ok(());
        };
        if matches!(spec.start, Start::Ready) && is_single(pipeline) {
            let known = KnownRun {
                run,
                bodies: spec.bodies.copy(alloc)?,
                alone: is_alone(pipeline),
            };
            return self.keep(name.as_str(), known);
        }
        Ok(())
    }

    /// A PipelineRun with the Pipeline that it refers to among the objects that stand earlier, or with its own spec, the
    /// bodies of all tasks and the values that its parameters take (Tekton, PipelineRuns, Specifying the target Pipeline).
    ///
    /// A run that can't start is a value like any other, and has no tasks, bodies and results: its `start` has the first
    /// reason that holds, which is `CouldntGetPipeline`, `CouldntGetTask`, `ParameterMissing`, `ParameterTypeMismatch`,
    /// `InvalidTaskResultReference` or `InvalidWorkspaceBindings`, in this order (Tekton, PipelineRuns, Monitoring execution
    /// status). A run that is given values of the same shapes and the same workspaces as one before it of its Pipeline isn't
    /// judged again. The only error is want of memory.
    pub fn run(&mut self, alloc: Global, run: &'a RunObject) -> Result<RunSpec, AllocError>
        requires own { ReadsPipelineSource run.now.source }
        requires earlier { All (λ (i : I). ReadsObject i.object) self.old }
        ensures run { IfOk result (λ spec. spec ≡ resolved_run self.old run.now) }
        ensures kept { self.new ≡ self.old }
    {
        if let Some(spec) = self.again(alloc, run)? {
            return Ok(spec);
        }
        let spec = resolve_run(alloc, run, &self.earlier)?;
        self.learn(alloc, run, &spec)?;
        Ok(spec)
    }
}
