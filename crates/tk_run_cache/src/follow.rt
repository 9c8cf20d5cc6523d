//! How what is kept of runs follows one entry.

ghost use Rattle.std.specs.Prelude.{◌≡◌, ◌&&◌, ◌++◌, ◌∷◌, ℕ, [], List as Items, Some, None, is_none, option_copied, option_map, IfSome, OnOk};
ghost use Rattle.indexmap.specs.IndexMap.{get_by_text};
ghost use Rattle.tk_types.specs.declared.scenario.Kind.TheVariants.{Runs as RunKind, TaskRuns};
ghost use Rattle.tk_verdict.specs.WellFormed.{IsWellFormed};
ghost use Rattle.tk_labels.specs.Kept.{fresh, MayHave};
ghost use Rattle.tk_journal.specs.Effects.{kind_of, name_of, same_kind};
ghost use Rattle.tk_journal.specs.History.{outcome_of};
ghost use Rattle.tk_cache.specs.Views.{seen};
ghost use Rattle.tk_cache.specs.Written.{names_after};
ghost use Rattle.tk_places.specs.Places.{IsPlaceOf};
ghost use Rattle.tk_run_cache.specs.Follow.{ChangesAt, MayFollow, MayHaveTaskRun, MayStep, scheduled_in, standing_after, standing_with, stepped};
ghost use Rattle.tk_run_cache.specs.Labelled.{kept_names};

use crate::children::{new_children, outcome_of, outcome_seen};
use crate::known::Known;
use crate::step::Step;
use indexmap::IndexMap;
use std::alloc::{AllocError, Global};
use tk_cache::{Cache, is_of};
use tk_journal::{Act, Admission, TaskRunState};
use tk_labels::Labels;
use tk_types::{Child, Kind, RunSpec, TryCopy};

/// What is kept of runs, by their names.
pub(crate) type Runs = IndexMap<String, Known>;

/// Makes a step of a run, where it is kept.
fn step_run(alloc: Global, runs: &mut Runs, name: &str, step: Step) -> Result<(), AllocError>
    requires may { IfSome (get_by_text runs.old name.now) (MayStep step) }
    ensures changes { OnOk result (ChangesAt name.now (option_map (stepped step)) runs.old runs.new) }
    ensures names { OnOk result (kept_names runs.new ≡ kept_names runs.old) }
{
    if let Some(known) = runs.get_mut(name) {
        known.go(alloc, step)?;
    }
    Ok(())
}

/// Adds a run that is admitted.
fn admit(alloc: Global, runs: &mut Runs, name: &str, spec: &RunSpec) -> Result<(), AllocError>
    requires formed { IsWellFormed (fresh spec.now) }
    requires absent { get_by_text runs.old name.now ≡ None }
    ensures changes { OnOk result (ChangesAt name.now (λ s. Some record { facts = fresh spec.now; missing = [] }) runs.old runs.new) }
    ensures names { OnOk result (kept_names runs.new ≡ kept_names runs.old ++ name.now ∷ []) }
{
    let known = Known::of(alloc, spec.copy(alloc)?)?;
    let key = String::from_str(alloc, name)?;
    runs.insert(key, known)?;
    Ok(())
}

/// A task of a run gets so many children, as the cache shows them.
fn schedule(
    alloc: Global,
    runs: &mut Runs,
    cache: &Cache,
    name: &str,
    task: u32,
    count: usize,
) -> Result<(), AllocError>
    requires may { IfSome (get_by_text runs.old name.now) (λ s. MayHave s.facts task count) }
    ensures changes { OnOk result (ChangesAt name.now (option_map (scheduled_in (seen cache.now).view.task_run task count)) runs.old runs.new) }
    ensures names { OnOk result (kept_names runs.new ≡ kept_names runs.old) }
{
    let Some(known) = runs.get(name) else {
        return Ok(());
    };
    let (outcomes, missing) = new_children(alloc, cache, known.labels().spec(), task, count)?;
    step_run(
        alloc,
        runs,
        name,
        Step::Children {
            task,
            outcomes,
            missing,
        },
    )?;
    Ok(())
}

/// Follows an entry, beside the TaskRuns that the cache shows.
pub(crate) fn follow_run(
    alloc: Global,
    runs: &mut Runs,
    cache: &Cache,
    act: &Act,
) -> Result<(), AllocError>
    requires may { MayFollow act.now (get_by_text runs.old (name_of act.now)) }
    ensures changes { OnOk result (ChangesAt (name_of act.now) (standing_after (seen cache.now).view.task_run act.now) runs.old runs.new) }
    ensures names { OnOk result (kept_names runs.new ≡ names_after RunKind act.now (kept_names runs.old)) }
{
    match act {
        Act::Admit {
            name,
            spec: Admission::Run(spec),
            ..
        } => admit(alloc, runs, name.as_str(), spec),
        Act::Schedule {
            name,
            task,
            bindings,
        } => schedule(alloc, runs, cache, name.as_str(), *task, bindings.len()),
        Act::Halt { name, stop } => step_run(alloc, runs, name.as_str(), Step::Stop(*stop)),
        _ => Ok(()),
    }
}

/// Whether an entry is of a TaskRun that has no outcome.
pub(crate) fn may_end(cache: &Cache, act: &Act) -> bool
    ensures { result ≡ (same_kind TaskRuns (kind_of act.now) && is_none (outcome_of ((seen cache.now).view.task_run (name_of act.now)))) }
{
    if !is_of(Kind::TaskRuns, act) {
        return false;
    }
    match cache.task_run(act.name()) {
        None => true,
        Some(task_run) => outcome_of(task_run).is_none(),
    }
}

/// Follows a TaskRun that had no outcome before an entry.
pub(crate) fn follow_task_run(
    alloc: Global,
    runs: &mut Runs,
    task_run: &TaskRunState,
) -> Result<(), AllocError>
    requires may { MayHaveTaskRun task_run.now runs.old }
    ensures ends { OnOk result ((name : Items ℕ) → get_by_text runs.new name ≡ standing_with task_run.now name (get_by_text runs.old name)) }
    ensures names { OnOk result (kept_names runs.new ≡ kept_names runs.old) }
{
    let Some(run) = &task_run.run else {
        return Ok(());
    };
    let outcome = outcome_seen(alloc, task_run)?;
    step_run(
        alloc,
        runs,
        run.as_str(),
        Step::TaskRun {
            task: task_run.task,
            index: task_run.index,
            outcome,
        },
    )?;
    Ok(())
}

/// The labels of a run, where it is kept.
pub(crate) fn labels_of<'a>(runs: &'a Runs, name: &str) -> Option<&'a Labels>
    ensures { option_copied result ≡ option_map (λ s. s.facts) (get_by_text runs.now name.now) }
{
    match runs.get(name) {
        None => None,
        Some(known) => Some(known.labels()),
    }
}

/// The children of a run without a TaskRun, where it is kept.
pub(crate) fn missing_of<'a>(runs: &'a Runs, name: &str) -> Option<&'a [Child]>
    ensures { option_copied result ≡ option_map (λ s. s.missing) (get_by_text runs.now name.now) }
{
    match runs.get(name) {
        None => None,
        Some(known) => Some(known.missing()),
    }
}

/// The place of a run, where it is kept.
pub(crate) fn place_of(runs: &Runs, name: &str) -> Option<u64>
    ensures { IsPlaceOf (kept_names runs.now) name.now result }
{
    match runs.get_index_of(name) {
        Some(place) => Some(place as u64),
        None => None,
    }
}
