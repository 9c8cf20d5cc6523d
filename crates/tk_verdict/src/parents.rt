ghost use Rattle.std.specs.Prelude.{◌≡◌, ◌&&◌, false, bytes_eq, map, slice_get, IfOk, option_copied};
ghost use Rattle.std.specs.List.{list_any, list_all};
ghost use Rattle.std.specs.Option.{option_map_or};
ghost use Rattle.tk_types.specs.declared.task.PipelineTask.{PipelineTask as Task};
ghost use Rattle.tk_verdict.specs.Facts.{all_tasks};
ghost use Rattle.tk_verdict.specs.Good.{AreGood};
ghost use Rattle.tk_verdict.specs.Rows.{is_good_parent, lacks_result};
ghost use Rattle.tk_verdict.specs.Verdict.{blocks as blocks_children, is_skipped as is_skipped_label, label_at as label_of_place};

use crate::label::{blocks, is_skipped, is_skipped_by_when};
use std::alloc::{AllocError, Global};
use tk_graph::result_tasks;
use tk_types::{Facts, FirstNamed, PipelineTask, Text, Verdict};

/// The label at a place.
pub fn label_at(labels: &[Verdict], place: usize) -> Verdict
    ensures { result ≡ label_of_place labels.now place }
{
    labels.get(place).copied().unwrap_or(Verdict::Waits)
}

/// Whether a parent is skipped so that its children are too.
pub fn is_blocked(parents: &[u32], labels: &[Verdict]) -> bool
    ensures { result ≡ list_any (λ p. blocks_children (label_of_place labels.now p)) parents.now }
{
    parents
        .iter()
        .any(|place| blocks(label_at(labels, *place as usize)))
}

/// Whether the parent at a place is good, or skipped by its own guard.
fn is_good(facts: &Facts, good: &[bool], labels: &[Verdict], place: u32) -> bool
    requires { AreGood facts.now good.now }
    ensures { result ≡ is_good_parent facts.now (place, label_of_place labels.now place) }
{
    good.get(place as usize).copied().unwrap_or(false)
        || is_skipped_by_when(label_at(labels, place as usize))
}

/// Whether all parents are good, or skipped by their own guards.
pub(crate) fn are_good(facts: &Facts, good: &[bool], labels: &[Verdict], parents: &[u32]) -> bool
    requires { AreGood facts.now good.now }
    ensures { result ≡ list_all (λ p. is_good_parent facts.now (p, label_of_place labels.now p)) parents.now }
{
    for place in parents {
        if !is_good(facts, good, labels, *place) {
            return false;
        }
    }
    true
}

/// The task at a place: those of `tasks` stand first.
pub(crate) fn task_at(facts: &Facts, place: u32) -> Option<&PipelineTask>
    ensures { option_copied result ≡ slice_get (all_tasks facts.now) place }
{
    let tasks = facts.spec.tasks.as_slice();
    let place = place as usize;
    if place < tasks.len() {
        tasks.get(place)
    } else {
        facts.spec.finally.as_slice().get(place - tasks.len())
    }
}

/// Whether a name is among these.
fn is_among(names: &FirstNamed<Text>, name: &str) -> bool
    ensures { result ≡ list_any (λ other. bytes_eq other name.now) names.now }
{
    names.get(name).is_some()
}

/// Whether the task at a place is among the named ones.
fn is_named(facts: &Facts, names: &FirstNamed<Text>, place: u32) -> bool
    ensures { result ≡ option_map_or (λ (parent : Task). list_any (λ name. bytes_eq name parent.name) names.now) (slice_get (all_tasks facts.now) place) false }
{
    match task_at(facts, place) {
        Some(parent) => is_among(names, parent.name.as_str()),
        None => false,
    }
}

/// Whether a parent is skipped to whose results the task refers. The only error is want of memory.
pub fn lacks_result(
    alloc: Global,
    facts: &Facts,
    labels: &[Verdict],
    parents: &[u32],
    task: &PipelineTask,
) -> Result<bool, AllocError>
    ensures { IfOk result (λ lacks. lacks ≡ lacks_result facts.now (map (λ p. (p, label_of_place labels.now p)) parents.now) task.now) }
{
    let names = result_tasks(alloc, task)?;
    let names = FirstNamed::new(alloc, names.as_slice())?;
    Ok(any_skipped(facts, labels, parents, &names))
}

/// Whether one of the named parents is skipped.
fn any_skipped(facts: &Facts, labels: &[Verdict], parents: &[u32], names: &FirstNamed<Text>) -> bool
    ensures { result ≡ list_any (λ p. is_skipped_label (label_of_place labels.now p) && option_map_or (λ (parent : Task). list_any (λ name. bytes_eq name parent.name) names.now) (slice_get (all_tasks facts.now) p) false) parents.now }
{
    for place in parents {
        if is_skipped(label_at(labels, *place as usize)) && is_named(facts, names, *place) {
            return true;
        }
    }
    false
}
