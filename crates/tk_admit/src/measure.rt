ghost use Rattle.std.specs.Prelude.{◌≡◌, ◌<◌, All, IsTrue, length};
ghost use Rattle.std.specs.Option.{ForSome};
ghost use Rattle.tk_types.specs.Behaviour.{tasks_of};
ghost use Rattle.tk_early.specs.Possible.{told_count};
ghost use Rattle.tk_resolve.specs.Known.{IsSingle};
ghost use Rattle.tk_journal.specs.declared.act.Admission.TheVariants.{Run};
ghost use Rattle.tk_journal.specs.Weight.{run_weight};
ghost use Rattle.tk_admit.specs.Measure.{HasShortName, HasSize, IsMeasureOf};

use tk_types::{PipelineTask, RunSpec};

/// What a run weighs, and whether its children are seen to have whole names.
#[derive(Clone, Copy)]
pub(crate) struct Measure {
    pub weight: u64,
    pub whole: bool,
}

/// What a run without a matrix weighs, and how many bytes the longest name of its tasks has.
#[derive(Clone, Copy)]
pub(crate) struct RunSize {
    pub weight: u64,
    pub longest: usize,
}

/// Whether a run has a task.
pub(crate) fn has_tasks(spec: &RunSpec) -> bool
    ensures { IsTrue result → 0 < length (tasks_of spec.now) }
{
    !spec.tasks.is_empty() || !spec.finally.is_empty()
}

/// Whether none of some tasks has a matrix.
fn are_single(tasks: &[PipelineTask]) -> bool
    ensures { IsTrue result → All IsSingle tasks.now }
{
    tasks.iter().all(|task| task.matrix.is_none())
}

/// How many bytes the longest name of some tasks has.
fn longest_name(tasks: &[PipelineTask]) -> usize
    ensures { All (HasShortName result) tasks.now }
{
    let mut longest: usize = 0;
    for task in tasks {
        longest = longest.max(task.name.len());
    }
    longest
}

/// The size of a run that weighs so much, unless a task has a matrix.
pub(crate) fn size_of(spec: &RunSpec, weight: u64) -> Option<RunSize>
    requires { weight ≡ told_count (run_weight (Run spec.now)) }
    ensures { ForSome result (HasSize spec.now) }
{
    let tasks = spec.tasks.as_slice();
    let finally = spec.finally.as_slice();
    if !are_single(tasks) || !are_single(finally) {
        return None;
    }
    Some(RunSize {
        weight,
        longest: longest_name(tasks).max(longest_name(finally)),
    })
}

/// What is found of a run of this size: the names of its children are whole where the longest is.
pub(crate) fn measure_by(spec: &RunSpec, size: RunSize) -> Measure
    requires { HasSize spec.now size }
    ensures { IsMeasureOf (Run spec.now) result }
{
    let is_short = spec.name.len().saturating_add(size.longest) < 63;
    Measure {
        weight: size.weight,
        whole: is_short || (spec.tasks.is_empty() && spec.finally.is_empty()),
    }
}
