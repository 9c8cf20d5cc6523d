ghost use Rattle.std.specs.Prelude.{◌≡◌, ◌++◌, ◌∷◌, [], ℕ, List, Some, None, true, bytes_eq, option_copied, IfOk, OnOk, if◌then◌else◌};
ghost use Rattle.tk_types.specs.declared.scenario.Kind.TheVariants.{Runs, TaskRuns, Pods};
ghost use Rattle.tk_journal.specs.Effects.{name_of, kind_of, same_kind, run_made, task_run_made, pod_made};
ghost use Rattle.tk_journal.specs.Made.{MakesOrChanges};
ghost use Rattle.tk_cache.specs.Children.{AreOwned, IsNoted};
ghost use Rattle.tk_cache.specs.Objects.{held_at, object_at, names_in};
ghost use Rattle.tk_cache.specs.Written.{AreRunsAfter, AreTaskRunsAfter, ArePodsAfter, names_after};

use indexmap::IndexMap;
use std::alloc::{AllocError, Global};
use tk_groups::Groups;
use tk_journal::{Act, Entry, PodState, RunState, TaskRunState};
use tk_types::Kind;

/// An object as it stands, with the position of the last entry that wrote it.
#[derive(Drop)]
pub(crate) struct Held<T> {
    pub(crate) object: T,
    pub(crate) version: u64,
}

/// The objects of a kind by their names, in order of creation.
pub(crate) type Objects<T> = IndexMap<String, Held<T>>;

/// Adds an object that isn't there yet.
fn add<T: Drop>(
    alloc: Global,
    objects: &mut Objects<T>,
    name: &str,
    held: Held<T>,
) -> Result<(), AllocError>
    requires absent { held_at objects.old name.now ≡ None }
    ensures at { OnOk result ((other : List ℕ) → held_at objects.new other ≡ (if bytes_eq name.now other then Some held else held_at objects.old other)) }
    ensures names { OnOk result (names_in objects.new ≡ names_in objects.old ++ name.now ∷ []) }
{
    let key = String::from_str(alloc, name)?;
    objects.insert(key, held)?;
    Ok(())
}

/// Lets an entry change the runs.
pub(crate) fn write_run(
    alloc: Global,
    runs: &mut Objects<RunState>,
    position: u64,
    entry: &Entry,
) -> Result<(), AllocError>
    requires kind { same_kind Runs (kind_of entry.now.act) ≡ true }
    requires fits { MakesOrChanges Runs entry.now (run_made entry.now.act) (object_at runs.old (name_of entry.now.act)) }
    ensures at { OnOk result (AreRunsAfter entry.now position runs.old runs.new) }
    ensures names { OnOk result (names_in runs.new ≡ names_after Runs entry.now.act (names_in runs.old)) }
{
    let name = entry.act.name();
    if let Some(held) = runs.get_mut(name) {
        held.object.apply(alloc, entry.moment, &entry.act)?;
        held.version = position;
        return Ok(());
    }
    if let Some(object) = RunState::made(alloc, &entry.act)? {
        let version = position;
        add(alloc, runs, name, Held { object, version })?;
    }
    Ok(())
}

/// Lets an entry change the pods.
pub(crate) fn write_pod(
    alloc: Global,
    pods: &mut Objects<PodState>,
    position: u64,
    entry: &Entry,
) -> Result<(), AllocError>
    requires kind { same_kind Pods (kind_of entry.now.act) ≡ true }
    requires fits { MakesOrChanges Pods entry.now (pod_made entry.now.act) (object_at pods.old (name_of entry.now.act)) }
    ensures at { OnOk result (ArePodsAfter entry.now position pods.old pods.new) }
    ensures names { OnOk result (names_in pods.new ≡ names_after Pods entry.now.act (names_in pods.old)) }
{
    let name = entry.act.name();
    if let Some(held) = pods.get_mut(name) {
        held.object.apply(alloc, entry.actor, &entry.act)?;
        held.version = position;
        return Ok(());
    }
    if let Some(object) = PodState::made(alloc, &entry.act)? {
        let version = position;
        add(alloc, pods, name, Held { object, version })?;
    }
    Ok(())
}

/// An object by its name.
pub(crate) fn object_of<'a, T>(objects: &'a Objects<T>, name: &str) -> Option<&'a T>
    ensures { option_copied result ≡ object_at objects.now name.now }
{
    match objects.get(name) {
        Some(held) => Some(&held.object),
        None => None,
    }
}

/// The TaskRun that an entry makes, if it makes one.
fn task_run_made(
    alloc: Global,
    runs: &Objects<RunState>,
    act: &Act,
) -> Result<Option<TaskRunState>, AllocError>
    ensures { IfOk result (λ made. made ≡ task_run_made (object_at runs.now) act.now) }
{
    if let Act::MakeTaskRun { run, .. } = act {
        return TaskRunState::made(alloc, act, object_of(runs, run.as_str()));
    }
    TaskRunState::made(alloc, act, None)
}

/// Notes the name of a TaskRun that is new among those of its run, where it has one.
fn note(owned: &mut Groups, task_run: &TaskRunState, name: &str) -> Result<(), AllocError>
    ensures { OnOk result (IsNoted task_run.now.run name.now owned.old owned.new) }
{
    if let Some(run) = &task_run.run {
        owned.add(run.as_str(), name)?;
    }
    Ok(())
}

/// Lets an entry change the TaskRuns and what is kept of whose they are, beside the runs as they stand before it.
pub(crate) fn write_task_run(
    alloc: Global,
    task_runs: &mut Objects<TaskRunState>,
    owned: &mut Groups,
    runs: &Objects<RunState>,
    position: u64,
    entry: &Entry,
) -> Result<(), AllocError>
    requires kind { same_kind TaskRuns (kind_of entry.now.act) ≡ true }
    requires fits { MakesOrChanges TaskRuns entry.now (task_run_made (object_at runs.now) entry.now.act) (object_at task_runs.old (name_of entry.now.act)) }
    requires owned { AreOwned task_runs.old owned.old }
    ensures at { OnOk result (AreTaskRunsAfter (object_at runs.now) entry.now position task_runs.old task_runs.new) }
    ensures names { OnOk result (names_in task_runs.new ≡ names_after TaskRuns entry.now.act (names_in task_runs.old)) }
    ensures owned { OnOk result (AreOwned task_runs.new owned.new) }
{
    let name = entry.act.name();
    if let Some(held) = task_runs.get_mut(name) {
        held.object.apply(alloc, entry.moment, &entry.act)?;
        held.version = position;
        return Ok(());
    }
    if let Some(object) = task_run_made(alloc, runs, &entry.act)? {
        note(owned, &object, name)?;
        let version = position;
        add(alloc, task_runs, name, Held { object, version })?;
    }
    Ok(())
}
