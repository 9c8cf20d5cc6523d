ghost use Rattle.std.specs.Prelude.{◌≡◌, All, Some, IfOk};
ghost use Rattle.tk_types.specs.declared.object.Item.{Item as I};
ghost use Rattle.tk_types.specs.declared.task.TaskBody.{TaskBody as BodyRecord};
ghost use Rattle.tk_bind.specs.Readings.{ReadsObject, ReadsPipelineSource, ReadsPipelineSpec, ReadsTaskSpec};
ghost use Rattle.tk_resolve.specs.declared.reason.Reason.TheVariants.{CouldntGetPipeline};
ghost use Rattle.tk_resolve.specs.Run.{bodies_of, resolved_run, run_with_bodies, run_with_pipeline, unstartable};

use crate::bodies::bodies_of;
use crate::lookup::Earlier;
use crate::reason::Reason;
use crate::run_reason::first_reason;
use crate::spec::{pipeline_of, startable, unstartable};
use crate::values::all_values;
use std::alloc::{AllocError, Global};
use tk_types::{List, PipelineSpec, RunObject, RunSpec, TaskBody, TryCopy};

/// A run whose Pipeline and Tasks are found: it can start unless there is a reason.
fn run_with_bodies(
    alloc: Global,
    earlier: &Earlier<'_>,
    run: &RunObject,
    pipeline: &PipelineSpec,
    bodies: List<TaskBody>,
) -> Result<RunSpec, AllocError>
    requires found { bodies_of earlier.now run.now pipeline.now ≡ Some bodies }
    requires pipeline { ReadsPipelineSpec pipeline.now }
    requires bodies { All (λ (body : BodyRecord). ReadsTaskSpec body.spec) bodies }
    ensures { IfOk result (λ spec. spec ≡ run_with_bodies run.now pipeline.now bodies) }
{
    let params = all_values(alloc, pipeline.params.as_slice(), run.params.as_slice())?;
    let values = params.as_slice();
    match first_reason(alloc, earlier, run, pipeline, bodies.as_slice(), values)? {
        Some(reason) => unstartable(alloc, run, params, reason),
        None => startable(alloc, run, pipeline, params, bodies),
    }
}

/// A run whose Pipeline is found.
fn run_with_pipeline(
    alloc: Global,
    earlier: &Earlier<'_>,
    run: &RunObject,
    pipeline: &PipelineSpec,
) -> Result<RunSpec, AllocError>
    requires pipeline { ReadsPipelineSpec pipeline.now }
    requires earlier { All (λ (i : I). ReadsObject i.object) earlier.now }
    ensures { IfOk result (λ spec. spec ≡ run_with_pipeline earlier.now run.now pipeline.now) }
{
    match bodies_of(alloc, earlier, run, pipeline)? {
        Some(bodies) => run_with_bodies(alloc, earlier, run, pipeline, bodies),
        None => {
            let params = all_values(alloc, pipeline.params.as_slice(), run.params.as_slice())?;
            unstartable(alloc, run, params, Reason::CouldntGetTask)
        }
    }
}

/// A run whose Pipeline isn't found.
fn without_pipeline(alloc: Global, run: &RunObject) -> Result<RunSpec, AllocError>
    ensures { IfOk result (λ spec. spec ≡ unstartable run.now run.now.params CouldntGetPipeline) }
{
    let params = run.params.copy(alloc)?;
    unstartable(alloc, run, params, Reason::CouldntGetPipeline)
}

/// A PipelineRun with all that it refers to. The only error is want of memory.
pub(crate) fn resolve_run(
    alloc: Global,
    run: &RunObject,
    earlier: &Earlier<'_>,
) -> Result<RunSpec, AllocError>
    requires own { ReadsPipelineSource run.now.source }
    requires earlier { All (λ (i : I). ReadsObject i.object) earlier.now }
    ensures { IfOk result (λ spec. spec ≡ resolved_run earlier.now run.now) }
{
    match pipeline_of(earlier, &run.source) {
        Some(pipeline) => run_with_pipeline(alloc, earlier, run, pipeline),
        None => without_pipeline(alloc, run),
    }
}
