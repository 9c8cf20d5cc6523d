ghost use Rattle.std.specs.Prelude.{◌≡◌, ◌<◌, ◌^◌, length, nat_lt, nat_eq, IfOk};
ghost use Rattle.std.specs.List.{list_all};
ghost use Rattle.tk_types.specs.declared.object.Asked.{Asked as AnAsked};
ghost use Rattle.tk_types.specs.declared.run.Stop.{Stop as AStop};
ghost use Rattle.tk_types.specs.Behaviour.{level_of as level_of_stop};
ghost use Rattle.tk_verdict.specs.Labels.{labels_of};
ghost use Rattle.tk_verdict.specs.Verdict.{is_ready as is_ready_label};
ghost use Rattle.tk_journal.specs.RunRows.{facts_in};
ghost use Rattle.tk_journal.specs.Stops.{asked_level as level_of_asked};
ghost use Rattle.tk_cache.specs.Views.{seen};
ghost use Rattle.tk_runrec.specs.Choice.{schedule as schedule_row, schedule_task as schedule_of_task};
ghost use Rattle.tk_runrec.specs.Fit.{IsFit};
ghost use Rattle.tk_runrec.specs.Labels.{first_ready as first_ready_of};
ghost use Rattle.tk_runrec.specs.Tests.{may_go_on, may_finish, may_schedule};

use crate::stops::{asked_level, is_of_finally};
use std::alloc::{AllocError, Global};
use tk_cache::Cache;
use tk_journal::{Act, RunState};
use tk_labels::Labels;
use tk_types::{Asked, Stop, Text, Verdict};

fn is_none_asked(asked: &[Asked]) -> bool
    ensures { result ≡ list_all (λ (a : AnAsked). nat_eq (level_of_asked a) 0) asked.now }
{
    asked.iter().all(|status| asked_level(*status) == 0)
}

fn are_asked_below(asked: &[Asked]) -> bool
    ensures { result ≡ list_all (λ (a : AnAsked). nat_lt (level_of_asked a) 3) asked.now }
{
    asked.iter().all(|status| asked_level(*status) < 3)
}

fn are_recorded_below(recorded: &[Stop]) -> bool
    ensures { result ≡ list_all (λ (s : AStop). nat_lt (level_of_stop s) 3) recorded.now }
{
    recorded.iter().all(|stop| stop.level() < 3)
}

/// Whether nothing holds back the tasks of `tasks`.
pub fn goes_on(run: &RunState, kept: &Labels) -> bool
    requires { kept.now.spec ≡ run.now.spec }
    ensures { result ≡ may_go_on run.now kept.now.children }
{
    run.stops.is_empty() && is_none_asked(run.asked.as_slice()) && !kept.has_bad()
}

/// Whether nothing holds back the tasks of `finally` (Tekton, Pipelines, Using Finally with your Pipeline).
pub fn finishes(run: &RunState) -> bool
    ensures { result ≡ may_finish run.now }
{
    are_recorded_below(run.stops.as_slice()) && are_asked_below(run.asked.as_slice())
}

fn is_ready(label: Verdict) -> bool
    ensures { result ≡ is_ready_label label }
{
    matches!(label, Verdict::Ready)
}

/// The first Ready task that nothing holds back.
fn first_ready(run: &RunState, kept: &Labels, labels: &[Verdict]) -> Option<u32>
    requires same { kept.now.spec ≡ run.now.spec }
    requires few { length labels.now < 2 ^ 32 }
    ensures { result ≡ first_ready_of (may_schedule run.now kept.now.children) 0 labels.now }
{
    let tasks = goes_on(run, kept);
    let finally = finishes(run);
    for place in 0..labels.len() {
        let task = place as u32;
        let may = if is_of_finally(&run.spec, task) {
            finally
        } else {
            tasks
        };
        if is_ready(labels[place]) && may {
            return Some(task);
        }
    }
    None
}

/// The task with the bindings that the rules give it.
fn schedule_task(
    alloc: Global,
    name: &str,
    kept: &Labels,
    task: u32,
) -> Result<Option<Act>, AllocError>
    ensures { IfOk result (λ act. act ≡ schedule_of_task name.now kept.now (labels_of kept.now) task) }
{
    match kept.bindings(alloc, task)? {
        None => Ok(None),
        Some(bindings) => Ok(Some(Act::Schedule {
            name: Text::from_str(alloc, name)?,
            task,
            bindings,
        })),
    }
}

/// The row Schedule.
pub(crate) fn schedule(
    alloc: Global,
    cache: &Cache,
    name: &str,
    run: &RunState,
    kept: &Labels,
    labels: &[Verdict],
) -> Result<Option<Act>, AllocError>
    requires fit { IsFit (seen cache.now).view run.now }
    requires facts { kept.now ≡ facts_in (seen cache.now).view run.now }
    requires labels { labels.now ≡ labels_of kept.now }
    ensures { IfOk result (λ act. act ≡ schedule_row (seen cache.now).view name.now run.now labels.now) }
{
    if run.start.is_none() || kept.first_ready().is_none() {
        return Ok(None);
    }
    match first_ready(run, kept, labels) {
        None => Ok(None),
        Some(task) => schedule_task(alloc, name, kept, task),
    }
}
