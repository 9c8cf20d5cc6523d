ghost use Rattle.std.specs.Prelude.{◌≡◌, ◌≤◌, ◌<◌, length, slice_get, option_copied, option_map, option_and_then, IfOk, IfSome};
ghost use Rattle.tk_cache.specs.Views.{seen};
ghost use Rattle.tk_journal.specs.Plan.{plan_of};
ghost use Rattle.tk_names.specs.Children.{most_attempts, pod_name as pod_name_of};
ghost use Rattle.tk_task_cache.specs.Acting.{AreQueued};
ghost use Rattle.tk_taskrec.specs.Choice.{starts_ready, close_by, make_pod as pod_of, act_by_pod, act_without, act_of, act_named, choice};
ghost use Rattle.tk_taskrec.specs.Fit.{IsFit, AreFit};

use crate::planning::plan;
use std::alloc::{AllocError, Global};
use tk_cache::Cache;
use tk_journal::{Act, Closing, PodState, TaskRunState};
use tk_names::pod_name;
use tk_places::Places;
use tk_task_cache::{TaskCache, open_attempt};
use tk_types::{Start, Text, TryCopy};

fn is_ready(start: &Start) -> bool
    ensures { result ≡ starts_ready start.now }
{
    matches!(start, Start::Ready)
}

/// The pod of an attempt, where the attempt has a plan.
fn make_pod(
    alloc: Global,
    name: &str,
    task_run: &TaskRunState,
    attempt: u32,
    pod: Text,
) -> Result<Option<Act>, AllocError>
    requires fit { IsFit task_run.now }
    requires from_one { 1 ≤ attempt }
    requires named { pod ≡ pod_name_of name.now attempt }
    ensures { IfOk result (λ found. found ≡ option_map (pod_of name.now task_run.now attempt) (plan_of task_run.now attempt)) }
{
    match plan(alloc, task_run, attempt)? {
        None => Ok(None),
        Some(plan) => Ok(Some(Act::MakePod {
            name: pod,
            task_run: Text::from_str(alloc, name)?,
            attempt,
            plan,
            mark: task_run.marked,
        })),
    }
}

/// What becomes of an attempt by its pod.
fn by_end(alloc: Global, name: &str, pod: &PodState) -> Result<Option<Act>, AllocError>
    ensures { IfOk result (λ found. found ≡ close_by name.now pod.now.ended) }
{
    match &pod.ended {
        None => Ok(None),
        Some(ended) => Ok(Some(Act::Close {
            name: Text::from_str(alloc, name)?,
            closing: Closing::Attempt(ended.outcome.copy(alloc)?),
        })),
    }
}

/// What becomes of an open attempt.
fn of_attempt(
    alloc: Global,
    cache: &Cache,
    name: &str,
    task_run: &TaskRunState,
    attempt: u32,
) -> Result<Option<Act>, AllocError>
    requires fit { IsFit task_run.now }
    requires from_one { 1 ≤ attempt }
    ensures { IfOk result (λ found. found ≡ act_by_pod name.now task_run.now attempt ((seen cache.now).view.pod (pod_name_of name.now attempt))) }
{
    let pod = pod_name(alloc, name, attempt)?;
    match cache.pod(pod.as_str()) {
        None => make_pod(alloc, name, task_run, attempt, pod),
        Some(pod) => by_end(alloc, name, pod),
    }
}

/// What becomes of a TaskRun without an open attempt.
fn without_attempt(
    alloc: Global,
    name: &str,
    task_run: &TaskRunState,
) -> Result<Option<Act>, AllocError>
    ensures { IfOk result (λ found. found ≡ act_without name.now task_run.now) }
{
    if task_run.marked || !is_ready(&task_run.spec.start) {
        return Ok(Some(Act::Close {
            name: Text::from_str(alloc, name)?,
            closing: Closing::TaskRun,
        }));
    }
    if task_run.attempts.len() <= task_run.spec.retries as usize {
        return Ok(Some(Act::OpenAttempt {
            name: Text::from_str(alloc, name)?,
        }));
    }
    Ok(None)
}

/// What becomes of a TaskRun.
fn of_task_run(
    alloc: Global,
    cache: &Cache,
    name: &str,
    task_run: &TaskRunState,
) -> Result<Option<Act>, AllocError>
    requires fit { IsFit task_run.now }
    ensures { IfOk result (λ found. found ≡ act_of (seen cache.now).view name.now task_run.now) }
{
    if task_run.closed.is_some() {
        return Ok(None);
    }
    match open_attempt(task_run.attempts.as_slice()) {
        Some(place) => of_attempt(alloc, cache, name, task_run, place as u32 + 1),
        None => without_attempt(alloc, name, task_run),
    }
}

/// Of the TaskRun at a place.
fn at_place(alloc: Global, cache: &Cache, place: u64) -> Result<Option<Act>, AllocError>
    requires fit { AreFit (seen cache.now).view }
    requires within { place < length (seen cache.now).view.task_runs }
    ensures { IfOk result (λ found. found ≡ option_and_then (act_named (seen cache.now).view) (slice_get (seen cache.now).view.task_runs place)) }
{
    of_task_run(
        alloc,
        cache,
        cache.task_run_name(place),
        cache.task_run_at(place),
    )
}

/// The first act of a TaskRun whose place is in the queue.
fn first_queued(alloc: Global, cache: &Cache, queue: &Places) -> Result<Option<Act>, AllocError>
    requires fit { AreFit (seen cache.now).view }
    requires queued { AreQueued (seen cache.now).view queue.now }
    ensures { IfOk result (λ found. found ≡ choice (seen cache.now).view) }
{
    let end = cache.task_run_count();
    let mut from = 0;
    while from < end {
        let Some(place) = queue.next(from) else {
            return Ok(None);
        };
        if end <= place {
            return Ok(None);
        }
        let found = at_place(alloc, cache, place)?;
        if found.is_some() {
            return Ok(found);
        }
        from = place + 1;
    }
    Ok(None)
}

/// The first act that a cache justifies for a task worker, of TaskRuns in order of creation. The only error is want of
/// memory.
pub fn choose(alloc: Global, cache: &TaskCache) -> Result<Option<Act>, AllocError>
    requires fit { AreFit (seen cache.now).view }
    ensures { IfOk result (λ found. found ≡ choice (seen cache.now).view) }
{
    first_queued(alloc, cache.cache(), cache.queue())
}
