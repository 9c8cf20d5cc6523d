ghost use Rattle.std.specs.Prelude.{◌≡◌, ◌++◌, ◌<◌, ◌^◌, length, IfOk, OnOk};
ghost use Rattle.tk_journal.specs.History.{children_from, children_in as children_seen, facts_of, outcome_of as outcome_seen};
ghost use Rattle.tk_journal.specs.Names.{child_name_of};
ghost use Rattle.tk_cache.specs.Views.{seen};
ghost use Rattle.tk_report.specs.Objects.{HasFewChildren, outcome_at as outcome_due};

use crate::run::name_of_child;
use crate::words::outcome_of;
use std::alloc::{AllocError, Global};
use tk_cache::Cache;
use tk_journal::{RunState, Scheduled};
use tk_types::{Child, Facts, List, Outcome, Text, TryCopy};

/// The name of a run's child by its task's place and its index.
fn child_name_of(alloc: Global, run: &RunState, task: u32, index: u32) -> Result<Text, AllocError>
    ensures { IfOk result (λ name. name ≡ child_name_of run.now.spec task index) }
{
    match run.spec.task(task as usize) {
        None => Ok(Text::new(alloc)),
        Some(task) => name_of_child(alloc, run, task, index),
    }
}

/// How a run's child ended, if it did.
fn outcome_at(
    alloc: Global,
    objects: &Cache,
    run: &RunState,
    task: u32,
    index: u32,
) -> Result<Option<Outcome>, AllocError>
    ensures { IfOk result (λ outcome. outcome ≡ outcome_due (seen objects.now).view run.now task index) }
{
    let name = child_name_of(alloc, run, task, index)?;
    match objects.task_run(name.as_str()) {
        None => Ok(None),
        Some(task_run) => match outcome_of(task_run) {
            None => Ok(None),
            Some(outcome) => Ok(Some(outcome.copy(alloc)?)),
        },
    }
}

/// Adds the children of one task.
fn push_children(
    alloc: Global,
    children: &mut Vec<Child>,
    objects: &Cache,
    run: &RunState,
    part: &Scheduled,
) -> Result<(), AllocError>
    requires { length part.now.bindings < 2 ^ 32 }
    ensures { OnOk result (children.new.items ≡ children.old.items ++ children_from (outcome_due (seen objects.now).view run.now part.now.task) part.now.task 0 part.now.bindings) }
{
    for (index, _) in part.bindings.as_slice().iter().enumerate() {
        let index = index as u32;
        children.push(Child {
            task: part.task,
            index,
            outcome: outcome_at(alloc, objects, run, part.task, index)?,
        })?;
    }
    Ok(())
}

/// The children of a run.
fn children_of(alloc: Global, objects: &Cache, run: &RunState) -> Result<Vec<Child>, AllocError>
    requires { HasFewChildren run.now }
    ensures { IfOk result (λ children. children.items ≡ children_seen (outcome_due (seen objects.now).view run.now) run.now.scheduled) }
{
    let mut children = Vec::new(alloc);
    for part in run.scheduled.as_slice() {
        push_children(alloc, &mut children, objects, run, part)?;
    }
    Ok(children)
}

/// What is known of a run by these objects.
pub(crate) fn facts_in(alloc: Global, objects: &Cache, run: &RunState) -> Result<Facts, AllocError>
    requires { HasFewChildren run.now }
    ensures { IfOk result (λ facts. facts ≡ facts_of (seen objects.now).view.task_run run.now) }
{
    Ok(Facts {
        spec: run.spec.copy(alloc)?,
        stops: run.stops.copy(alloc)?,
        children: List::from_vec(children_of(alloc, objects, run)?),
    })
}
