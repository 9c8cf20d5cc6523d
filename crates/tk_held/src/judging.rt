//! Which held pods are settled (Tekton, Tasks, Configuring a Timeout; PipelineRuns, Cancelling a PipelineRun).
ghost use Rattle.std.specs.Prelude.{◌≡◌, option_copied};
ghost use Rattle.tk_cache.specs.Views.{seen};
ghost use Rattle.tk_held.specs.Settled.{attempt_at as the_attempt, is_late_attempt as the_late_attempt, is_late_run as the_late, is_marked_run as the_marked, settled_in, settled_pod as the_settled_pod};

use tk_cache::Cache;
use tk_journal::{Attempt, PodState, TaskRunState};

/// How a held pod is settled before its steps end: it is marked, or its attempt is late.
#[derive(Clone, Copy, Debug, PartialEq, Eq)]
pub enum Settled {
    Cancelled,
    TimedOut,
}

/// The attempt of a number, counted from 1.
fn attempt_at(number: u32, attempts: &[Attempt]) -> Option<&Attempt>
    ensures { option_copied result ≡ the_attempt number attempts.now }
{
    if number == 0 {
        return None;
    }
    attempts.get((number - 1) as usize)
}

/// Whether the attempt's time is over; a timeout of 0 is none.
fn is_late_attempt(timeout: u64, moment: u64, attempt: Option<&Attempt>) -> bool
    ensures { result ≡ the_late_attempt timeout moment (option_copied attempt.entry) }
{
    match attempt {
        None => false,
        Some(attempt) => 0 < timeout
            && attempt.moment <= moment
            && timeout <= moment - attempt.moment,
    }
}

fn is_marked_run(task_run: Option<&TaskRunState>) -> bool
    ensures { result ≡ the_marked (option_copied task_run.entry) }
{
    match task_run {
        None => false,
        Some(task_run) => task_run.marked,
    }
}

fn is_late_run(number: u32, moment: u64, task_run: Option<&TaskRunState>) -> bool
    ensures { result ≡ the_late number moment (option_copied task_run.entry) }
{
    match task_run {
        None => false,
        Some(task_run) => is_late_attempt(
            task_run.spec.timeout,
            moment,
            attempt_at(number, task_run.attempts.as_slice()),
        ),
    }
}

/// A mark goes before a timeout.
fn settled_pod(moment: u64, pod: &PodState, task_run: Option<&TaskRunState>) -> Option<Settled>
    ensures { result ≡ the_settled_pod moment pod.now (option_copied task_run.entry) }
{
    if pod.marked || is_marked_run(task_run) {
        Some(Settled::Cancelled)
    } else if is_late_run(pod.attempt, moment, task_run) {
        Some(Settled::TimedOut)
    } else {
        None
    }
}

/// How the pod of this name is settled at a moment in milliseconds, by what the cache shows of it and of its TaskRun.
pub fn judge(cache: &Cache, name: &str, moment: u64) -> Option<Settled>
    ensures { result ≡ settled_in (seen cache.now).view moment name.now }
{
    match cache.pod(name) {
        None => None,
        Some(pod) => settled_pod(moment, pod, cache.task_run(pod.task_run.as_str())),
    }
}
