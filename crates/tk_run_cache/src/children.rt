//! What a cache shows of a run's children.

ghost use Rattle.std.specs.Prelude.{◌≡◌, ◌≤◌, ◌^◌, ◌++◌, ◌∷◌, [], filter, Some, option_copied, IfOk, OnOk};
ghost use Rattle.std.specs.List.{list_any};
ghost use Rattle.tk_journal.specs.History.{outcome_of};
ghost use Rattle.tk_journal.specs.Names.{child_name_of, index_in_name as index_of_name};
ghost use Rattle.tk_cache.specs.Views.{seen};
ghost use Rattle.tk_labels.specs.Change.{runs_at};
ghost use Rattle.tk_run_cache.specs.Follow.{absent_seen, child_seen, is_absent, outcome_seen as outcome_seen_of, outcomes_seen};

use std::alloc::{AllocError, Global};
use tk_cache::Cache;
use tk_journal::{Ending, TaskRunState};
use tk_types::{Child, List, Outcome, PipelineTask, RunSpec, Text, TryCopy};

/// The index that stands in a child's name, where its task has a matrix.
fn index_in_name(task: &PipelineTask, index: u32) -> Option<u32>
    ensures { result ≡ index_of_name task.now index }
{
    match task.matrix {
        Some(_) => Some(index),
        None => None,
    }
}

/// The name of a child's TaskRun (Tekton, PipelineRuns, Monitoring execution status).
fn child_name(alloc: Global, spec: &RunSpec, task: u32, index: u32) -> Result<Text, AllocError>
    ensures { IfOk result (λ name. name ≡ child_name_of spec.now task index) }
{
    match spec.task(task as usize) {
        Some(task) => tk_names::child_name(
            alloc,
            spec.name.as_str(),
            task.name.as_str(),
            index_in_name(task, index),
        ),
        None => Ok(Text::new(alloc)),
    }
}

/// The outcome with which a TaskRun closed, None also where it couldn't start.
pub(crate) fn outcome_of(task_run: &TaskRunState) -> Option<&Outcome>
    ensures { option_copied result ≡ outcome_of (Some task_run.now) }
{
    match &task_run.closed {
        None => None,
        Some(Ending::Unstartable(_)) => None,
        Some(Ending::Of(outcome)) => Some(outcome),
    }
}

/// A copy of that outcome.
pub(crate) fn outcome_seen(
    alloc: Global,
    task_run: &TaskRunState,
) -> Result<Option<Outcome>, AllocError>
    ensures { IfOk result (λ outcome. outcome ≡ outcome_of (Some task_run.now)) }
{
    match outcome_of(task_run) {
        None => Ok(None),
        Some(outcome) => Ok(Some(outcome.copy(alloc)?)),
    }
}

/// Adds to these the outcome of a child that the cache shows, and the child itself where it shows no TaskRun of it.
fn add_child(
    alloc: Global,
    cache: &Cache,
    spec: &RunSpec,
    task: u32,
    index: u32,
    outcomes: &mut Vec<Option<Outcome>>,
    missing: &mut Vec<Child>,
) -> Result<(), AllocError>
    ensures outcomes { OnOk result (outcomes.new.items ≡ outcomes.old.items ++ outcome_seen_of (seen cache.now).view.task_run spec.now task index ∷ []) }
    ensures missing { OnOk result (missing.new.items ≡ missing.old.items ++ filter (is_absent (seen cache.now).view.task_run spec.now) (child_seen (seen cache.now).view.task_run spec.now task index ∷ [])) }
{
    let name = child_name(alloc, spec, task, index)?;
    let Some(task_run) = cache.task_run(name.as_str()) else {
        outcomes.push(None)?;
        missing.push(Child {
            task,
            index,
            outcome: None,
        })?;
        return Ok(());
    };
    let outcome = outcome_seen(alloc, task_run)?;
    outcomes.push(outcome)?;
    Ok(())
}

/// The outcomes of the first so many children of a task that a cache shows, and those of them of which it shows no TaskRun.
pub(crate) fn new_children(
    alloc: Global,
    cache: &Cache,
    spec: &RunSpec,
    task: u32,
    count: usize,
) -> Result<(List<Option<Outcome>>, List<Child>), AllocError>
    requires few { count ≤ 2 ^ 32 }
    ensures outcomes { IfOk result (λ made. made.0 ≡ outcomes_seen (seen cache.now).view.task_run spec.now task count) }
    ensures missing { IfOk result (λ made. made.1 ≡ absent_seen (seen cache.now).view.task_run spec.now task count) }
{
    let mut outcomes = Vec::new(alloc);
    let mut missing = Vec::new(alloc);
    for index in 0..count {
        add_child(
            alloc,
            cache,
            spec,
            task,
            index as u32,
            &mut outcomes,
            &mut missing,
        )?;
    }
    Ok((List::from_vec(outcomes), List::from_vec(missing)))
}

/// Whether a child is that of a task and an index, and runs.
fn is_running_at(child: &Child, task: u32, index: u32) -> bool
    ensures { result ≡ runs_at task index child.now }
{
    child.task == task && child.index == index && child.outcome.is_none()
}

/// Whether the child of a task and an index is among these, and runs.
pub(crate) fn is_running(children: &[Child], task: u32, index: u32) -> bool
    ensures { result ≡ list_any (runs_at task index) children.now }
{
    children
        .iter()
        .any(|child| is_running_at(child, task, index))
}
