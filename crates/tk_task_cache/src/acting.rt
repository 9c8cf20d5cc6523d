//! Whether a TaskRun may give rise to an act.
ghost use Rattle.std.specs.Prelude.{◌≡◌, ◌≤◌, ◌<◌, length, option_copied, Some, IfOk, OnOk, IfSome};
ghost use Rattle.tk_cache.specs.Views.{seen};
ghost use Rattle.tk_names.specs.Children.{most_attempts};
ghost use Rattle.tk_task_cache.specs.Acting.{AreFew, IsJudged, is_awaited, may_act_at, open_from, waits as the_waits};

use std::alloc::{AllocError, Global};
use tk_cache::Cache;
use tk_journal::{Attempt, PodState, TaskRunState};
use tk_names::pod_name;
use tk_places::Places;

/// The place of the first open attempt.
pub fn open_attempt(attempts: &[Attempt]) -> Option<usize>
    ensures first { result ≡ open_from 0 attempts.now }
    ensures within { IfSome result (λ place. place < length attempts.now) }
{
    for place in 0..attempts.len() {
        if attempts[place].outcome.is_none() {
            return Some(place);
        }
    }
    None
}

/// Whether the pod is there and hasn't ended.
fn is_awaited(pod: Option<&PodState>) -> bool
    ensures { result ≡ is_awaited (option_copied pod.entry) }
{
    match pod {
        None => false,
        Some(pod) => pod.ended.is_none(),
    }
}

/// Whether the open attempt of a TaskRun has a pod that hasn't ended.
fn waits(
    alloc: Global,
    cache: &Cache,
    name: &str,
    task_run: &TaskRunState,
) -> Result<bool, AllocError>
    requires few { length task_run.now.attempts ≤ most_attempts }
    ensures { IfOk result (λ waits. waits ≡ the_waits (seen cache.now).view name.now task_run.now) }
{
    match open_attempt(task_run.attempts.as_slice()) {
        None => Ok(false),
        Some(place) => {
            let pod = pod_name(alloc, name, place as u32 + 1)?;
            Ok(is_awaited(cache.pod(pod.as_str())))
        }
    }
}

/// Whether a TaskRun may give rise to an act.
fn may_act(
    alloc: Global,
    cache: &Cache,
    name: &str,
    task_run: &TaskRunState,
) -> Result<bool, AllocError>
    requires few { length task_run.now.attempts ≤ most_attempts }
    ensures { IfOk result (λ may. may ≡ may_act_at (seen cache.now).view name.now (Some task_run.now)) }
{
    if task_run.closed.is_some() {
        return Ok(false);
    }
    Ok(!waits(alloc, cache, name, task_run)?)
}

/// Judges the TaskRun of a name anew, if it is there.
pub(crate) fn judge(
    alloc: Global,
    cache: &Cache,
    queue: &mut Places,
    name: &str,
) -> Result<(), AllocError>
    requires few { AreFew (seen cache.now).view }
    ensures { OnOk result (IsJudged (seen cache.now).view name.now queue.old queue.new) }
{
    let Some(place) = cache.task_run_place(name) else {
        return Ok(());
    };
    let may = may_act(alloc, cache, name, cache.task_run_at(place))?;
    queue.set(place, may)?;
    Ok(())
}
