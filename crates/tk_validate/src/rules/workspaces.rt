ghost use Rattle.std.specs.Prelude.{false};
ghost use Rattle.tk_types.specs.Rejected.{Reads};
ghost use Rattle.tk_validate.specs.Workspaces.{is_declared, pipeline_hands_on, task_hands_on, undeclared_workspaces};

use crate::parts::{check_pipeline, check_tasks};
use crate::rule::{Checked, Rule, check_all};
use std::alloc::Global;
use tk_types::{
    Fault, ItemObject, Location, NameSet, PipelineSpec, PipelineTask, SpaceUse, refusal,
};

/// Workspaces that are handed on, each of which has one of the names.
#[derive(Drop)]
struct HandedOn<'n, 'a> {
    names: &'n NameSet<'a>,
}

impl<'n, 'a> Rule<SpaceUse> for HandedOn<'n, 'a> {
    ghost finding = { λ rule. is_declared rule.names.now };

    fn check(&self, alloc: Global, handed: &SpaceUse, place: &Location<'_>) -> Checked {
        if !self.names.contains(handed.from.as_str()) {
            return Err(refusal(alloc, Fault::BAD_CHOICE, place));
        }
        Ok(())
    }
}

impl<'n, 'a> Rule<PipelineTask> for HandedOn<'n, 'a> {
    ghost finding = { λ rule. task_hands_on rule.names.now false };

    #[tactic(auto, unfolding(crate::specs::Workspaces::task_hands_on))]
    fn check(&self, alloc: Global, task: &PipelineTask, place: &Location<'_>) -> Checked {
        check_all(alloc, self, task.spaces.as_slice(), place, "workspaces")
    }
}

/// Pipelines, by the workspaces that their tasks hand on.
#[derive(Drop)]
struct Declared;

impl Rule<PipelineSpec> for Declared {
    ghost finding = { λ rule. pipeline_hands_on };

    #[tactic(auto, unfolding(crate::specs::Workspaces::pipeline_hands_on))]
    fn check(&self, alloc: Global, spec: &PipelineSpec, place: &Location<'_>) -> Checked {
        let names = NameSet::of(alloc, spec.spaces.as_slice())?;
        check_tasks(alloc, &HandedOn { names: &names }, spec, place)
    }
}

/// Refuses the first workspace that a pipeline's task hands on and the pipeline doesn't declare.
pub fn check_workspaces(alloc: Global, object: &ItemObject, place: &Location<'_>) -> Checked
    ensures { Reads (undeclared_workspaces place.now object.now) tt result }
{
    check_pipeline(alloc, &Declared, object, place)
}
