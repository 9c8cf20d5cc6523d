ghost use Rattle.std.specs.Prelude.{◌≡◌, None};
ghost use Rattle.tk_types.specs.Rejected.{Reads};
ghost use Rattle.tk_validate.specs.Cycle.{acyclic, cycles};
ghost use Rattle.tk_validate.specs.Parts.{on_pipeline_source};
ghost use Rattle.tk_validate.specs.Sizes.{pipeline_within, sizes};

use crate::rule::Checked;
use std::alloc::Global;
use tk_graph::cycle;
use tk_types::{Detail, Fault, ItemObject, Location, PipelineSource, PipelineSpec, told};

/// Refuses a pipeline, within its sizes, some of whose tasks wait for themselves, and tells the names of a cycle.
#[tactic(auto, unfolding(crate::specs::Cycle::acyclic))]
fn check_cycle(alloc: Global, spec: &PipelineSpec, place: &Location<'_>) -> Checked
    requires { pipeline_within place.now spec.now ≡ None }
    ensures { Reads (acyclic place.now spec.now) tt result }
{
    match cycle(alloc, spec.tasks.as_slice())? {
        Some(names) => Err(told(
            alloc,
            Fault::CYCLE,
            &place.key("tasks"),
            Detail::Names(names),
        )),
        None => Ok(()),
    }
}

/// The same of a run's pipeline.
fn check_source(alloc: Global, source: &PipelineSource, place: &Location<'_>) -> Checked
    requires { on_pipeline_source pipeline_within place.now source.now ≡ None }
    ensures { Reads (on_pipeline_source acyclic place.now source.now) tt result }
{
    match source {
        PipelineSource::Inlined(spec) => { check_cycle(alloc, spec, &place.key("pipelineSpec")) }
        PipelineSource::Named(_) => Ok(()),
    }
}

/// Refuses an object, within its sizes, some of whose tasks wait for themselves.
pub fn check_cycles(alloc: Global, object: &ItemObject, place: &Location<'_>) -> Checked
    requires { sizes place.now object.now ≡ None }
    ensures { Reads (cycles place.now object.now) tt result }
{
    match object {
        ItemObject::Pipeline { spec, .. } => check_cycle(alloc, spec, place),
        ItemObject::PipelineRun(run) => check_source(alloc, &run.source, place),
        _ => Ok(()),
    }
}
