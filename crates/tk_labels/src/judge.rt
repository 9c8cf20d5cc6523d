//! One task of `tasks` judged by its children, by its parents' labels and by its parents' results.

ghost use Rattle.std.specs.Prelude.{◌≡◌, ◌<◌, ◌+◌, ◌++◌, ◌^◌, All, List as Items, Option, Some, flat_map, length, map, slice_get, IfOk, OnOk};
ghost use Rattle.std.specs.List.{list_all, list_any};
ghost use Rattle.tk_types.specs.declared.run.Child.{Child as ChildRecord};
ghost use Rattle.tk_types.specs.declared.task.PipelineTask.{PipelineTask as Task};
ghost use Rattle.tk_types.specs.declared.value.Param.{Param as ParamRecord};
ghost use Rattle.tk_types.specs.declared.verdict.SkipReason.TheVariants.{Parent};
ghost use Rattle.tk_types.specs.declared.verdict.Verdict.{Verdict as VerdictOf};
ghost use Rattle.tk_types.specs.declared.verdict.Verdict.TheVariants.{Waits};
ghost use Rattle.tk_graph.specs.Parents.{parents as parents_of};
ghost use Rattle.tk_labels.specs.Kept.{of_run};
ghost use Rattle.tk_labels.specs.Local.{results_at};
ghost use Rattle.tk_verdict.specs.Bindings.{combinations_in as combinations_of};
ghost use Rattle.tk_verdict.specs.Gathered.{good_row as row_of_good, labelled};
ghost use Rattle.tk_verdict.specs.Facts.{children_at, first_stop, is_running};
ghost use Rattle.tk_verdict.specs.Good.{is_good_at as is_good_of_place};
ghost use Rattle.tk_verdict.specs.Labels.{bindings_at as bindings_of_place, label_by as label_of, verdict_line};
ghost use Rattle.tk_verdict.specs.Own.{own_in};
ghost use Rattle.tk_verdict.specs.Readings.{ReadsBody};
ghost use Rattle.tk_verdict.specs.Rows.{is_good_parent};
ghost use Rattle.tk_verdict.specs.Verdict.{label_at as label_of_place};
ghost use Rattle.tk_verdict.specs.WellFormed.{IsWellFormed};
ghost use Rattle.tk_verdict.specs.Words.{task_env};

use crate::cases::running_runs;
use crate::locality::parents_suffice;
use crate::spans::{Kids, are_all_good};
use std::alloc::{AllocError, Global};
use tk_bind::{EnvIndex, Given, Lookup};
use tk_early::task_words;
use tk_types::{Binding, Child, Facts, List, PipelineTask, SkipReason, Stop, TaskBody, Verdict};
use tk_verdict::judging::{
    Own, add_of_task, bindings_in, is_blocked, is_skipped_by_when, label_at, label_by,
    lacks_result, own_of, own_row,
};

/// Whether the task at a place has children and all are good.
pub(crate) fn is_good_at(run: &Facts, kids: &Kids, place: u32) -> bool
    requires { length run.now.spec.tasks + length run.now.spec.finally < 2 ^ 63 }
    ensures { result ≡ is_good_of_place (of_run run.now kids.now) place }
{
    match run.spec.task(place as usize) {
        Some(task) => are_all_good(kids.at(place), task.ignore_failure),
        None => false,
    }
}

/// Whether the parent at a place is good, or skipped by its own guard.
fn is_good(run: &Facts, kids: &Kids, labels: &[Verdict], place: u32) -> bool
    requires { length run.now.spec.tasks + length run.now.spec.finally < 2 ^ 63 }
    ensures { result ≡ is_good_parent (of_run run.now kids.now) (place, label_of_place labels.now place) }
{
    is_good_at(run, kids, place) || is_skipped_by_when(label_at(labels, place as usize))
}

/// Whether all parents are good, or skipped by their own guards.
fn are_good(run: &Facts, kids: &Kids, labels: &[Verdict], parents: &[u32]) -> bool
    requires { length run.now.spec.tasks + length run.now.spec.finally < 2 ^ 63 }
    ensures { result ≡ list_all (λ p. is_good_parent (of_run run.now kids.now) (p, label_of_place labels.now p)) parents.now }
{
    for place in parents {
        if !is_good(run, kids, labels, *place) {
            return false;
        }
    }
    true
}

/// Adds the results of the task at a place of `tasks`.
fn add_at(
    alloc: Global,
    made: &mut List<Given>,
    run: &Facts,
    kids: &Kids,
    place: u32,
) -> Result<(), AllocError>
    requires { place < length run.now.spec.tasks }
    ensures { OnOk result (made.new ≡ made.old ++ results_at (of_run run.now kids.now) place) }
{
    let task = &run.spec.tasks.as_slice()[place as usize];
    let children = kids.each(alloc, place)?;
    add_of_task(alloc, made, task, children.as_slice())
}

/// The results of the tasks at some places of `tasks`.
fn results_of(
    alloc: Global,
    run: &Facts,
    kids: &Kids,
    places: &[u32],
) -> Result<List<Given>, AllocError>
    requires { All (λ p. p < length run.now.spec.tasks) places.now }
    ensures { IfOk result (λ results. results ≡ flat_map (results_at (of_run run.now kids.now)) places.now) }
{
    let mut made = List::new(alloc);
    for place in places {
        add_at(alloc, &mut made, run, kids, *place)?;
    }
    Ok(made)
}

/// What the own texts of the task at a place of `tasks` give, by its parents' results alone.
pub(crate) fn own_at(
    alloc: Global,
    run: &Facts,
    kids: &Kids,
    parents: &[u32],
    place: u32,
) -> Result<Own, AllocError>
    requires formed { IsWellFormed (of_run run.now kids.now) }
    requires parents { parents.now ≡ parents_of run.now.spec.tasks place }
    requires exists { place < length run.now.spec.tasks }
    ensures { IfOk result (λ own. (task : Task) → slice_get run.now.spec.tasks place ≡ Some task → own ≡ own_in (task_env (of_run run.now kids.now) task) task) }
{
    parents_suffice();
    let task = &run.spec.tasks.as_slice()[place as usize];
    let results = results_of(alloc, run, kids, parents)?;
    let index = EnvIndex::new(alloc, run.spec.params.as_slice(), results.as_slice(), &[])?;
    let words = task_words(alloc, &run.spec, task)?;
    let lookup = Lookup::new(&index, words.as_slice());
    own_of(alloc, &lookup, task)
}

/// The bindings of the task at a place of `tasks`, by its parents' results alone. The only error is want of memory.
pub(crate) fn bindings_at(
    alloc: Global,
    run: &Facts,
    kids: &Kids,
    parents: &[u32],
    place: u32,
) -> Result<Option<List<Binding>>, AllocError>
    requires formed { IsWellFormed (of_run run.now kids.now) }
    requires parents { parents.now ≡ parents_of run.now.spec.tasks place }
    requires exists { place < length run.now.spec.tasks }
    ensures { IfOk result (λ made. (labels : Items VerdictOf) → made ≡ bindings_of_place (of_run run.now kids.now) labels place) }
{
    parents_suffice();
    let task = &run.spec.tasks.as_slice()[place as usize];
    let results = results_of(alloc, run, kids, parents)?;
    let index = EnvIndex::new(alloc, run.spec.params.as_slice(), results.as_slice(), &[])?;
    let words = task_words(alloc, &run.spec, task)?;
    let lookup = Lookup::new(&index, words.as_slice());
    bindings_in(alloc, &lookup, task)
}

/// The label of a task that has a parent by which it is skipped.
fn blocked_label(
    alloc: Global,
    children: &[&Child],
    stop: Option<Stop>,
) -> Result<Verdict, AllocError>
    ensures { IfOk result (λ label. (combinations : Option (Items (Items ParamRecord))) (next : VerdictOf)
        → label ≡ label_of (map (λ c. c.now) children.now) combinations (Some Parent) stop next) }
{
    label_by(
        alloc,
        children,
        &None,
        Some(SkipReason::Parent),
        stop,
        Verdict::Waits,
    )
}

/// The label of a task with a parent that isn't good yet, and none by which it is skipped.
fn waiting_label(
    alloc: Global,
    run: &Facts,
    kids: &Kids,
    children: &[&Child],
    parents: &[u32],
    place: u32,
) -> Result<Verdict, AllocError>
    requires formed { IsWellFormed (of_run run.now kids.now) }
    requires children { map (λ c. c.now) children.now ≡ children_at kids.now place }
    requires parents { parents.now ≡ parents_of run.now.spec.tasks place }
    requires exists { place < length run.now.spec.tasks }
    ensures { IfOk result (λ label. (task : Task) → slice_get run.now.spec.tasks place ≡ Some task
        → label ≡ label_of (children_at kids.now place) (combinations_of (task_env (of_run run.now kids.now) task) task) None (first_stop run.now) Waits) }
{
    let stop = run.stops.as_slice().first().copied();
    if children.is_empty() {
        return label_by(alloc, children, &None, None, stop, Verdict::Waits);
    }
    let own = own_at(alloc, run, kids, parents, place)?;
    label_by(
        alloc,
        children,
        &own.combined.list,
        None,
        stop,
        Verdict::Waits,
    )
}

/// Why a task whose parents are good is skipped, where it is.
fn good_row(
    alloc: Global,
    run: &Facts,
    labels: &[Verdict],
    parents: &[u32],
    task: &PipelineTask,
    body: &TaskBody,
    own: &Own,
) -> Result<Option<SkipReason>, AllocError>
    requires { ReadsBody body.now }
    ensures { IfOk result (λ row. (children : Items ChildRecord) → own.now ≡ own_in (task_env (of_run run.now children) task.now) task.now
        → row ≡ row_of_good (of_run run.now children) (labelled labels.now parents.now) task.now body.now) }
{
    if lacks_result(alloc, run, labels, parents, task)? {
        return Ok(Some(SkipReason::Missing));
    }
    own_row(alloc, body, own)
}

/// The label of the task at a place of `tasks` with these children, by its parents' labels.
fn judged_with(
    alloc: Global,
    run: &Facts,
    kids: &Kids,
    children: &[&Child],
    labels: &[Verdict],
    parents: &[u32],
    place: u32,
) -> Result<Verdict, AllocError>
    requires formed { IsWellFormed (of_run run.now kids.now) }
    requires children { map (λ c. c.now) children.now ≡ children_at kids.now place }
    requires parents { parents.now ≡ parents_of run.now.spec.tasks place }
    requires exists { place < length run.now.spec.tasks }
    ensures { IfOk result (λ label. label ≡ verdict_line (of_run run.now kids.now) labels.now place) }
{
    let task = &run.spec.tasks.as_slice()[place as usize];
    let body = &run.spec.bodies.as_slice()[place as usize];
    let stop = run.stops.as_slice().first().copied();
    if is_blocked(parents, labels) {
        return blocked_label(alloc, children, stop);
    }
    if !are_good(run, kids, labels, parents) {
        return waiting_label(alloc, run, kids, children, parents, place);
    }
    let own = own_at(alloc, run, kids, parents, place)?;
    let row = good_row(alloc, run, labels, parents, task, body, &own)?;
    label_by(
        alloc,
        children,
        &own.combined.list,
        row,
        stop,
        Verdict::Ready,
    )
}

/// Whether one of these children hasn't ended.
fn is_any_running(children: &[Child]) -> bool
    ensures { result ≡ list_any is_running children.now }
{
    children.iter().any(|child| child.outcome.is_none())
}

/// The label of the task at a place of `tasks`, by its parents' labels. While a child of it runs, nothing else is asked. The only
/// error is want of memory.
pub(crate) fn judged(
    alloc: Global,
    run: &Facts,
    kids: &Kids,
    labels: &[Verdict],
    parents: &[u32],
    place: u32,
) -> Result<Verdict, AllocError>
    requires formed { IsWellFormed (of_run run.now kids.now) }
    requires parents { parents.now ≡ parents_of run.now.spec.tasks place }
    requires exists { place < length run.now.spec.tasks }
    ensures { IfOk result (λ label. label ≡ verdict_line (of_run run.now kids.now) labels.now place) }
{
    running_runs();
    if is_any_running(kids.at(place)) {
        return Ok(Verdict::Runs);
    }
    let children = kids.each(alloc, place)?;
    judged_with(
        alloc,
        run,
        kids,
        children.as_slice(),
        labels,
        parents,
        place,
    )
}
