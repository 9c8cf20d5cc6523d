ghost use Rattle.std.specs.Prelude.{◌≡◌, ◌||◌, IfOk};
ghost use Rattle.std.specs.List.{list_any};
ghost use Rattle.tk_verdict.specs.Condition.{condition_of, finished, is_cancel, is_graceful, is_part_timeout, is_pipeline_timeout};
ghost use Rattle.tk_verdict.specs.Facts.{all_tasks, has_ended, is_cancelled};
ghost use Rattle.tk_verdict.specs.Failures.{condition_by, has_failure_among};
ghost use Rattle.tk_verdict.specs.Verdict.{is_broken_label, is_skipped as is_skipped_label};

use crate::finals::are_all_done;
use crate::label::{is_broken, is_skipped};
use crate::outcome::{has_failed, was_child_cancelled};
use crate::parents::task_at;
use std::alloc::{AllocError, Global};
use tk_types::{Child, Condition, Facts, Start, Stop, Text, TryCopy, Verdict};

/// Whether a child failed whose task doesn't ignore it.
fn has_failed_child(facts: &Facts, child: &Child) -> bool
    ensures { result ≡ has_failure_among (all_tasks facts.now) child.now }
{
    match task_at(facts, child.task) {
        Some(task) => has_failed(child) && !task.ignore_failure,
        None => false,
    }
}

/// Whether some child failed whose task doesn't ignore it.
fn has_failed_children(facts: &Facts) -> bool
    ensures { result ≡ list_any (has_failure_among (all_tasks facts.now)) facts.now.children }
{
    for child in facts.children.as_slice() {
        if has_failed_child(facts, child) {
            return true;
        }
    }
    false
}

/// Whether some child was cancelled.
fn has_cancelled_child(children: &[Child]) -> bool
    ensures { result ≡ list_any (has_ended is_cancelled) children.now }
{
    children.iter().any(|child| was_child_cancelled(child))
}

fn has_pipeline_timeout(stops: &[Stop]) -> bool
    ensures { result ≡ list_any is_pipeline_timeout stops.now }
{
    stops
        .iter()
        .any(|stop| matches!(stop, Stop::PipelineTimeout))
}

fn has_cancel(stops: &[Stop]) -> bool
    ensures { result ≡ list_any is_cancel stops.now }
{
    stops.iter().any(|stop| matches!(stop, Stop::Cancelled))
}

fn has_part_timeout(stops: &[Stop]) -> bool
    ensures { result ≡ list_any is_part_timeout stops.now }
{
    stops.iter().any(|stop| matches!(stop, Stop::TasksTimeout | Stop::FinallyTimeout))
}

fn has_graceful_stop(stops: &[Stop]) -> bool
    ensures { result ≡ list_any is_graceful stops.now }
{
    stops.iter().any(|stop| { matches!(stop, Stop::CancelledRunFinally | Stop::StoppedRunFinally) })
}

fn has_broken_label(labels: &[Verdict]) -> bool
    ensures { result ≡ list_any is_broken_label labels.now }
{
    labels.iter().any(|label| is_broken(*label))
}

fn has_skipped_label(labels: &[Verdict]) -> bool
    ensures { result ≡ list_any is_skipped_label labels.now }
{
    labels.iter().any(|label| is_skipped(*label))
}

/// What a finished run's condition depends on, in the order in which it decides.
#[derive(Clone, Copy)]
pub struct Signs {
    pub pipeline_timeout: bool,
    pub cancelled: bool,
    pub failed: bool,
    pub broken: bool,
    pub stopped: bool,
    pub skipped: bool,
}

/// What the condition of a finished run depends on.
fn signs_of(facts: &Facts, labels: &[Verdict]) -> Signs
    ensures { condition_by result ≡ finished facts.now labels.now }
{
    let stops = facts.stops.as_slice();
    let children = facts.children.as_slice();
    let failed = has_failed_children(facts);
    let graceful = has_graceful_stop(stops);
    let timed_out = has_part_timeout(stops);
    Signs {
        pipeline_timeout: has_pipeline_timeout(stops),
        cancelled: has_cancel(stops),
        failed: either(failed, timed_out),
        broken: has_broken_label(labels),
        stopped: either(graceful, has_cancelled_child(children)),
        skipped: has_skipped_label(labels),
    }
}

fn either(first: bool, second: bool) -> bool
    ensures { result ≡ (first || second) }
{
    first || second
}

/// The truth and the reason of a finished run's condition.
fn reason_by(signs: Signs) -> (bool, &'static str)
    ensures { record { holds = result.0; reason = result.1.now } ≡ condition_by signs }
{
    if signs.pipeline_timeout {
        (false, "PipelineRunTimeout")
    } else if signs.cancelled {
        (false, "Cancelled")
    } else if signs.failed {
        (false, "Failed")
    } else if signs.broken {
        (false, "InvalidTaskResultReference")
    } else if signs.stopped {
        (false, "Cancelled")
    } else if signs.skipped {
        (true, "Completed")
    } else {
        (true, "Succeeded")
    }
}

/// The condition of a run whose tasks have these labels, which may be any: none where the run can start and some task
/// isn't done (Tekton, PipelineRuns, Monitoring execution status). The only error is want of memory.
pub fn condition_with(
    alloc: Global,
    facts: &Facts,
    labels: &[Verdict],
) -> Result<Option<Condition>, AllocError>
    ensures { IfOk result (λ condition. condition ≡ condition_of facts.now labels.now) }
{
    if let Start::Unstartable(reason) = &facts.spec.start {
        return Ok(Some(Condition {
            holds: false,
            reason: reason.copy(alloc)?,
        }));
    }
    if !are_all_done(labels) {
        return Ok(None);
    }
    let (holds, reason) = reason_by(signs_of(facts, labels));
    Ok(Some(Condition {
        holds,
        reason: Text::from_str(alloc, reason)?,
    }))
}
