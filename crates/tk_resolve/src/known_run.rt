ghost use Rattle.std.specs.Prelude.{◌≡◌, ◌⊎◌, All, IsTrue};
ghost use Rattle.tk_resolve.specs.Known.{IsSingle, RunsTask, is_named as is_named_source};

use crate::same::Same;
use tk_types::{List, PipelineTask, RunObject, TaskBody, TaskSource};

/// A run of a Pipeline that can start, with its bodies, of which copies take no memory. It is `alone` where each of its
/// tasks is seen to run an earlier Task, so that no body has the values that are given to the run.
#[derive(Drop)]
pub(crate) struct KnownRun<'a> {
    pub run: &'a RunObject,
    pub bodies: List<TaskBody>,
    pub alone: bool,
}

impl<'a> KnownRun<'a> {
    /// Whether a run that is given alike has the same bodies.
    pub(crate) fn has_bodies_of(&self, run: &RunObject) -> bool
        ensures { IsTrue result → IsTrue self.now.alone ⊎ (self.now.run.now.params ≡ run.now.params) }
    {
        self.alone || self.run.params.is_same(&run.params)
    }
}

/// Whether none of some tasks has a matrix.
pub(crate) fn are_single(tasks: &[PipelineTask]) -> bool
    ensures { IsTrue result → All IsSingle tasks.now }
{
    for task in tasks {
        if task.matrix.is_some() {
            return false;
        }
    }
    true
}

/// Whether a task runs an earlier Task.
fn is_named(source: &TaskSource) -> bool
    ensures { result ≡ is_named_source source.now }
{
    matches!(source, TaskSource::Named(_))
}

/// Whether each of some tasks runs an earlier Task.
pub(crate) fn are_named(tasks: &[PipelineTask]) -> bool
    ensures { IsTrue result → All RunsTask tasks.now }
{
    for task in tasks {
        if !is_named(&task.source) {
            return false;
        }
    }
    true
}
