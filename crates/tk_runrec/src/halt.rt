ghost use Rattle.std.specs.Prelude.{◌≡◌, ◌≤◌, ◌&&◌, length, filter, find, IfOk};
ghost use Rattle.std.specs.List.{list_any, range_with_len};
ghost use Rattle.tk_runrec.specs.Choice.{halting_order, halt as halt_row};
ghost use Rattle.tk_runrec.specs.Fit.{AreApart};
ghost use Rattle.tk_runrec.specs.Labels.{is_undone as is_undone_label};
ghost use Rattle.tk_runrec.specs.Tests.{has_children, has_passed, is_bare, has_cause as has_cause_of, may_halt};

use crate::stops::{is_above_all, is_highest_asked, timed_out};
use std::alloc::{AllocError, Global};
use tk_journal::{Act, RunState, Scheduled};
use tk_labels::Labels;
use tk_types::{Stop, Text, Verdict};

fn is_undone(label: Verdict) -> bool
    ensures { result ≡ is_undone_label label }
{
    !matches!(label, Verdict::Ran | Verdict::Skipped(_))
}

fn is_any_undone(labels: &[Verdict]) -> bool
    ensures { result ≡ list_any is_undone_label labels.now }
{
    labels.iter().any(|label| is_undone(*label))
}

/// Whether the timeout has passed, and a task isn't done.
#[tactic(auto, using(crate::proofs::Late::either_order))]
fn is_late(labels: &[Verdict], start: Option<u64>, timeout: u64, moment: u64) -> bool
    ensures { result ≡ (list_any is_undone_label labels.now && has_passed start timeout moment) }
{
    timed_out(start, timeout, moment) && is_any_undone(labels)
}

/// How many of the first so many tasks have children.
fn with_children(scheduled: &[Scheduled], count: usize) -> usize
    ensures { result ≡ length (filter (has_children count) scheduled.now) }
{
    scheduled
        .iter()
        .filter(|part| (part.task as usize) < count && !part.bindings.is_empty())
        .count()
}

/// Whether one of the first so many tasks has no children.
#[tactic(auto, using(crate::proofs::Bare::fewer))]
fn is_any_bare(scheduled: &[Scheduled], count: usize) -> bool
    requires apart { AreApart scheduled.now }
    ensures { result ≡ list_any (is_bare scheduled.now) (range_with_len 0 count) }
{
    with_children(scheduled, count) < count
}

/// What the stop's own row says (Tekton, PipelineRuns, Configuring a failure timeout; Cancelling a PipelineRun).
fn has_cause(moment: u64, run: &RunState, kept: &Labels, labels: &[Verdict], stop: Stop) -> bool
    requires apart { AreApart run.now.scheduled }
    requires same { kept.now.spec ≡ run.now.spec }
    requires long { length run.now.spec.tasks ≤ length labels.now }
    ensures { result ≡ has_cause_of moment run.now kept.now.children labels.now stop }
{
    let tasks = run.spec.tasks.len();
    match stop {
        Stop::StoppedRunFinally | Stop::CancelledRunFinally | Stop::Cancelled => {
            is_highest_asked(run.asked.as_slice(), stop)
        }
        Stop::PipelineTimeout => is_late(labels, run.start, run.spec.pipeline_ms, moment),
        Stop::TasksTimeout => is_late(&labels[..tasks], run.start, run.spec.tasks_ms, moment),
        Stop::FinallyTimeout => is_late(
            &labels[tasks..],
            run.finally_start,
            run.spec.finally_ms,
            moment,
        ),
        Stop::Failure => {
            run.stops.is_empty() && kept.has_bad() && is_any_bare(run.scheduled.as_slice(), tasks)
        }
    }
}

/// Whether the stop may be recorded, of an open run.
pub fn may_record(
    moment: u64,
    run: &RunState,
    kept: &Labels,
    labels: &[Verdict],
    stop: Stop,
) -> bool
    requires apart { AreApart run.now.scheduled }
    requires same { kept.now.spec ≡ run.now.spec }
    requires long { length run.now.spec.tasks ≤ length labels.now }
    ensures { result ≡ may_halt moment run.now kept.now.children labels.now stop }
{
    run.start.is_some()
        && is_above_all(run.stops.as_slice(), stop)
        && has_cause(moment, run, kept, labels, stop)
}

/// The first of these stops that may be recorded.
fn first_of(
    moment: u64,
    run: &RunState,
    kept: &Labels,
    labels: &[Verdict],
    order: &[Stop],
) -> Option<Stop>
    requires apart { AreApart run.now.scheduled }
    requires same { kept.now.spec ≡ run.now.spec }
    requires long { length run.now.spec.tasks ≤ length labels.now }
    ensures { result ≡ find (may_halt moment run.now kept.now.children labels.now) order.now }
{
    for stop in order {
        if may_record(moment, run, kept, labels, *stop) {
            return Some(*stop);
        }
    }
    None
}

/// The first stop that may be recorded.
fn first_stop(moment: u64, run: &RunState, kept: &Labels, labels: &[Verdict]) -> Option<Stop>
    requires apart { AreApart run.now.scheduled }
    requires same { kept.now.spec ≡ run.now.spec }
    requires long { length run.now.spec.tasks ≤ length labels.now }
    ensures { result ≡ find (may_halt moment run.now kept.now.children labels.now) halting_order }
{
    let order = [
        Stop::Cancelled,
        Stop::CancelledRunFinally,
        Stop::StoppedRunFinally,
        Stop::PipelineTimeout,
        Stop::TasksTimeout,
        Stop::FinallyTimeout,
        Stop::Failure,
    ];
    first_of(moment, run, kept, labels, &order)
}

/// The rows Halt.
pub(crate) fn halt(
    alloc: Global,
    moment: u64,
    name: &str,
    run: &RunState,
    kept: &Labels,
    labels: &[Verdict],
) -> Result<Option<Act>, AllocError>
    requires apart { AreApart run.now.scheduled }
    requires same { kept.now.spec ≡ run.now.spec }
    requires long { length run.now.spec.tasks ≤ length labels.now }
    ensures { IfOk result (λ act. act ≡ halt_row moment name.now run.now kept.now.children labels.now) }
{
    match first_stop(moment, run, kept, labels) {
        None => Ok(None),
        Some(stop) => Ok(Some(Act::Halt {
            name: Text::from_str(alloc, name)?,
            stop,
        })),
    }
}
