ghost use Rattle.std.specs.Prelude.{◌≡◌, Some, None};
ghost use Rattle.tk_journal.specs.Stops.{asked_level};
ghost use Rattle.tk_types.specs.Behaviour.{level_of};
ghost use Rattle.tk_user.specs.Ask.{greatest, top_level, is_higher, run_refusal, task_run_refusal};

use crate::answer::AskAnswer;
use tk_journal::{RunState, TaskRunState};
use tk_types::{Asked, Stop};

/// How far an asked status goes.
fn level_asked(status: Asked) -> u32
    ensures { result ≡ asked_level status }
{
    match status {
        Asked::Start => 0,
        Asked::StoppedRunFinally => 1,
        Asked::CancelledRunFinally => 2,
        Asked::Cancelled | Asked::TaskRunCancelled => 4,
    }
}

/// The greatest level of what was asked.
fn most_asked(asked: &[Asked]) -> u32
    ensures { result ≡ greatest asked_level 0 asked.now }
{
    let mut most: u32 = 0;
    for place in 0..asked.len() {
        let level = level_asked(asked[place]);
        most = if most < level { level } else { most };
    }
    most
}

/// The greatest level of what was recorded, and of one more.
fn most_recorded(from: u32, stops: &[Stop]) -> u32
    ensures { result ≡ greatest level_of from stops.now }
{
    let mut most = from;
    for place in 0..stops.len() {
        let level = stops[place].level();
        most = if most < level { level } else { most };
    }
    most
}

/// The greatest asked or recorded level.
fn top(run: &RunState) -> u32
    ensures { result ≡ top_level run.now }
{
    most_recorded(most_asked(run.asked.as_slice()), run.stops.as_slice())
}

/// Whether the status is above all of that; a start, whether the run is pending.
fn is_above(run: &RunState, status: Asked) -> bool
    ensures { result ≡ is_higher run.now status }
{
    match status {
        Asked::Start => run.pending,
        _ => top(run) < level_asked(status),
    }
}

/// The refusal that a run of this version gives, if any (Tekton, PipelineRuns, Cancelling a PipelineRun; Gracefully stopping
/// a PipelineRun; Pending PipelineRuns).
pub fn of_run(version: u64, status: Asked, run: &Option<RunState>) -> Option<AskAnswer>
    ensures { result ≡ run_refusal version status run.now }
{
    match run {
        None => Some(AskAnswer::NoSuch),
        Some(run) => {
            if run.closed.is_some() {
                Some(AskAnswer::Finished { version })
            } else if is_above(run, status) {
                None
            } else {
                Some(AskAnswer::NotHigher { level: top(run) })
            }
        }
    }
}

/// The refusal that a TaskRun of this version gives, if any (Tekton, TaskRuns, Cancelling a TaskRun).
pub fn of_task_run(version: u64, task_run: &Option<TaskRunState>) -> Option<AskAnswer>
    ensures { result ≡ task_run_refusal version task_run.now }
{
    match task_run {
        None => Some(AskAnswer::NoSuch),
        Some(task_run) => {
            if task_run.run.is_some() {
                Some(AskAnswer::NoSuch)
            } else if task_run.closed.is_some() {
                Some(AskAnswer::Finished { version })
            } else if task_run.marked {
                Some(AskAnswer::NotHigher { level: 4 })
            } else {
                None
            }
        }
    }
}
