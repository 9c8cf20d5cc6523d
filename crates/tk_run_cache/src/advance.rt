//! How a cache and what is kept of runs go from position to position.

ghost use Rattle.std.specs.Prelude.{◌≡◌, ◌≤◌, ◌<◌, ◌+◌, ◌^◌, length, OnOk};
ghost use Rattle.tk_types.specs.declared.scenario.Kind.TheVariants.{Runs as RunKind, TaskRuns, Pods};
ghost use Rattle.tk_journal.specs.Legal.{IsLegal};
ghost use Rattle.tk_cache.specs.Fronts.{Shows, with_front};
ghost use Rattle.tk_cache.specs.Views.{seen};
ghost use Rattle.tk_run_cache.specs.Labelled.{AreLabelled};

use crate::follow::{Runs, follow_run, follow_task_run, may_end};
use indexmap::IndexMap;
use std::alloc::{AllocError, Global};
use tk_cache::Cache;
use tk_journal::Journal;
use tk_types::Kind;

/// The runs one position further.
fn pass_run(
    alloc: Global,
    cache: &mut Cache,
    runs: &mut Runs,
    journal: &Journal,
    place: u64,
) -> Result<(), AllocError>
    requires legal { IsLegal journal.now.history }
    requires within { place < length journal.now.history }
    requires small { place + 1 < 2 ^ 64 }
    requires at { cache.old.fronts.runs ≡ place }
    requires shows { Shows (seen cache.old) journal.now.history }
    requires labelled { AreLabelled (seen cache.old).view runs.old }
    ensures fronts { OnOk result (cache.new.fronts ≡ with_front RunKind (place + 1) cache.old.fronts) }
    ensures shows { OnOk result (Shows (seen cache.new) journal.now.history) }
    ensures labelled { OnOk result (AreLabelled (seen cache.new).view runs.new) }
{
    cache.relist(journal, Kind::Runs, place + 1)?;
    let entry = journal.entry(place + 1);
    follow_run(alloc, runs, cache, &entry.act)?;
    Ok(())
}

/// The TaskRuns one position further.
fn pass_task_run(
    alloc: Global,
    cache: &mut Cache,
    runs: &mut Runs,
    journal: &Journal,
    place: u64,
) -> Result<(), AllocError>
    requires legal { IsLegal journal.now.history }
    requires within { place < length journal.now.history }
    requires small { place + 1 < 2 ^ 64 }
    requires at { cache.old.fronts.task_runs ≡ place }
    requires shows { Shows (seen cache.old) journal.now.history }
    requires labelled { AreLabelled (seen cache.old).view runs.old }
    ensures fronts { OnOk result (cache.new.fronts ≡ with_front TaskRuns (place + 1) cache.old.fronts) }
    ensures shows { OnOk result (Shows (seen cache.new) journal.now.history) }
    ensures labelled { OnOk result (AreLabelled (seen cache.new).view runs.new) }
{
    let entry = journal.entry(place + 1);
    let could_end = may_end(cache, &entry.act);
    cache.relist(journal, Kind::TaskRuns, place + 1)?;
    if !could_end {
        return Ok(());
    }
    let Some(task_run) = cache.task_run(entry.act.name()) else {
        return Ok(());
    };
    follow_task_run(alloc, runs, task_run)?;
    Ok(())
}

/// Puts the front of runs at a position that isn't older.
fn advance_runs(
    alloc: Global,
    cache: &mut Cache,
    runs: &mut Runs,
    journal: &Journal,
    to: u64,
) -> Result<(), AllocError>
    requires legal { IsLegal journal.now.history }
    requires order { cache.old.fronts.runs ≤ to }
    requires within { to ≤ length journal.now.history }
    requires shows { Shows (seen cache.old) journal.now.history }
    requires labelled { AreLabelled (seen cache.old).view runs.old }
    ensures fronts { OnOk result (cache.new.fronts ≡ with_front RunKind to cache.old.fronts) }
    ensures shows { OnOk result (Shows (seen cache.new) journal.now.history) }
    ensures labelled { OnOk result (AreLabelled (seen cache.new).view runs.new) }
{
    let from = cache.front().runs;
    for place in from..to {
        pass_run(alloc, cache, runs, journal, place)?;
    }
    Ok(())
}

/// Puts the front of TaskRuns at a position that isn't older.
fn advance_task_runs(
    alloc: Global,
    cache: &mut Cache,
    runs: &mut Runs,
    journal: &Journal,
    to: u64,
) -> Result<(), AllocError>
    requires legal { IsLegal journal.now.history }
    requires order { cache.old.fronts.task_runs ≤ to }
    requires within { to ≤ length journal.now.history }
    requires shows { Shows (seen cache.old) journal.now.history }
    requires labelled { AreLabelled (seen cache.old).view runs.old }
    ensures fronts { OnOk result (cache.new.fronts ≡ with_front TaskRuns to cache.old.fronts) }
    ensures shows { OnOk result (Shows (seen cache.new) journal.now.history) }
    ensures labelled { OnOk result (AreLabelled (seen cache.new).view runs.new) }
{
    let from = cache.front().task_runs;
    for place in from..to {
        pass_task_run(alloc, cache, runs, journal, place)?;
    }
    Ok(())
}

/// Puts the fronts of runs and of TaskRuns at positions, be they older ones: all runs are followed anew.
fn start_over(
    alloc: Global,
    cache: &mut Cache,
    runs: &mut Runs,
    journal: &Journal,
    run_front: u64,
    task_run_front: u64,
) -> Result<(), AllocError>
    requires legal { IsLegal journal.now.history }
    requires runs_within { run_front ≤ length journal.now.history }
    requires task_runs_within { task_run_front ≤ length journal.now.history }
    requires shows { Shows (seen cache.old) journal.now.history }
    ensures fronts { OnOk result (cache.new.fronts ≡ with_front RunKind run_front (with_front TaskRuns task_run_front cache.old.fronts)) }
    ensures shows { OnOk result (Shows (seen cache.new) journal.now.history) }
    ensures labelled { OnOk result (AreLabelled (seen cache.new).view runs.new) }
{
    *runs = IndexMap::new(alloc);
    cache.relist(journal, Kind::Runs, 0)?;
    cache.relist(journal, Kind::TaskRuns, task_run_front)?;
    advance_runs(alloc, cache, runs, journal, run_front)?;
    Ok(())
}

fn list_runs(
    alloc: Global,
    cache: &mut Cache,
    runs: &mut Runs,
    journal: &Journal,
    position: u64,
) -> Result<(), AllocError>
    requires legal { IsLegal journal.now.history }
    requires within { position ≤ length journal.now.history }
    requires shows { Shows (seen cache.old) journal.now.history }
    requires labelled { AreLabelled (seen cache.old).view runs.old }
    ensures fronts { OnOk result (cache.new.fronts ≡ with_front RunKind position cache.old.fronts) }
    ensures shows { OnOk result (Shows (seen cache.new) journal.now.history) }
    ensures labelled { OnOk result (AreLabelled (seen cache.new).view runs.new) }
{
    let fronts = cache.front();
    if position < fronts.runs {
        return start_over(alloc, cache, runs, journal, position, fronts.task_runs);
    }
    advance_runs(alloc, cache, runs, journal, position)
}

fn list_task_runs(
    alloc: Global,
    cache: &mut Cache,
    runs: &mut Runs,
    journal: &Journal,
    position: u64,
) -> Result<(), AllocError>
    requires legal { IsLegal journal.now.history }
    requires within { position ≤ length journal.now.history }
    requires shows { Shows (seen cache.old) journal.now.history }
    requires labelled { AreLabelled (seen cache.old).view runs.old }
    ensures fronts { OnOk result (cache.new.fronts ≡ with_front TaskRuns position cache.old.fronts) }
    ensures shows { OnOk result (Shows (seen cache.new) journal.now.history) }
    ensures labelled { OnOk result (AreLabelled (seen cache.new).view runs.new) }
{
    let fronts = cache.front();
    if position < fronts.task_runs {
        return start_over(alloc, cache, runs, journal, fronts.runs, position);
    }
    advance_task_runs(alloc, cache, runs, journal, position)
}

/// Puts the front of pods at a position, which changes nothing of runs.
fn list_pods(
    cache: &mut Cache,
    runs: &Runs,
    journal: &Journal,
    position: u64,
) -> Result<(), AllocError>
    requires legal { IsLegal journal.now.history }
    requires within { position ≤ length journal.now.history }
    requires shows { Shows (seen cache.old) journal.now.history }
    requires labelled { AreLabelled (seen cache.old).view runs.now }
    ensures fronts { OnOk result (cache.new.fronts ≡ with_front Pods position cache.old.fronts) }
    ensures shows { OnOk result (Shows (seen cache.new) journal.now.history) }
    ensures labelled { OnOk result (AreLabelled (seen cache.new).view runs.now) }
{
    cache.relist(journal, Kind::Pods, position)?;
    Ok(())
}

/// Puts the kind's front at a position, be it an older one. Without memory nothing is known.
pub(crate) fn relist(
    alloc: Global,
    cache: &mut Cache,
    runs: &mut Runs,
    journal: &Journal,
    kind: Kind,
    position: u64,
) -> Result<(), AllocError>
    requires legal { IsLegal journal.now.history }
    requires within { position ≤ length journal.now.history }
    requires shows { Shows (seen cache.old) journal.now.history }
    requires labelled { AreLabelled (seen cache.old).view runs.old }
    ensures fronts { OnOk result (cache.new.fronts ≡ with_front kind position cache.old.fronts) }
    ensures shows { OnOk result (Shows (seen cache.new) journal.now.history) }
    ensures labelled { OnOk result (AreLabelled (seen cache.new).view runs.new) }
{
    match kind {
        Kind::Runs => list_runs(alloc, cache, runs, journal, position),
        Kind::TaskRuns => list_task_runs(alloc, cache, runs, journal, position),
        Kind::Pods => list_pods(cache, runs, journal, position),
    }
}
