//! How the places of the runs that can still get an entry go from position to position.
ghost use Rattle.std.specs.Prelude.{◌≡◌, ◌≤◌, ◌<◌, ◌+◌, ◌^◌, length, IfOk, OnOk};
ghost use Rattle.tk_types.specs.declared.scenario.Kind.TheVariants.{Runs, TaskRuns, Pods};
ghost use Rattle.tk_journal.specs.Legal.{IsLegal};
ghost use Rattle.tk_cache.specs.Fronts.{Shows, with_front};
ghost use Rattle.tk_cache.specs.Views.{seen};
ghost use Rattle.tk_run_cache.specs.Active.{AreActive};

use crate::active::{judge, judge_by};
use crate::labelled_cache::LabelledCache;
use std::alloc::{AllocError, Global};
use tk_cache::front_of;
use tk_journal::Journal;
use tk_places::Places;
use tk_types::Kind;

/// Judges all runs.
fn judge_all(alloc: Global, cache: &LabelledCache) -> Result<Places, AllocError>
    ensures { IfOk result (λ active. AreActive (seen cache.now).view active) }
{
    let mut active = Places::new(alloc);
    let shown = cache.cache();
    for place in 0..shown.run_count() {
        judge(cache, &mut active, shown.run_name(place))?;
    }
    Ok(active)
}

/// The runs one position further.
fn pass_run(
    cache: &mut LabelledCache,
    active: &mut Places,
    journal: &Journal,
    place: u64,
) -> Result<(), AllocError>
    requires legal { IsLegal journal.now.history }
    requires within { place < length journal.now.history }
    requires small { place + 1 < 2 ^ 64 }
    requires at { cache.old.fronts.runs ≡ place }
    requires shows { Shows (seen cache.old) journal.now.history }
    requires active { AreActive (seen cache.old).view active.old }
    ensures fronts { OnOk result (cache.new.fronts ≡ with_front Runs (place + 1) cache.old.fronts) }
    ensures shows { OnOk result (Shows (seen cache.new) journal.now.history) }
    ensures active { OnOk result (AreActive (seen cache.new).view active.new) }
{
    cache.relist(journal, Kind::Runs, place + 1)?;
    let entry = journal.entry(place + 1);
    judge(cache, active, entry.act.name())
}

/// The TaskRuns one position further: the run of the one that the entry names may have an open one now, or none any more.
fn pass_task_run(
    cache: &mut LabelledCache,
    active: &mut Places,
    journal: &Journal,
    place: u64,
) -> Result<(), AllocError>
    requires legal { IsLegal journal.now.history }
    requires within { place < length journal.now.history }
    requires small { place + 1 < 2 ^ 64 }
    requires at { cache.old.fronts.task_runs ≡ place }
    requires shows { Shows (seen cache.old) journal.now.history }
    requires active { AreActive (seen cache.old).view active.old }
    ensures fronts { OnOk result (cache.new.fronts ≡ with_front TaskRuns (place + 1) cache.old.fronts) }
    ensures shows { OnOk result (Shows (seen cache.new) journal.now.history) }
    ensures active { OnOk result (AreActive (seen cache.new).view active.new) }
{
    cache.relist(journal, Kind::TaskRuns, place + 1)?;
    let entry = journal.entry(place + 1);
    let Some(task_run) = cache.cache().task_run(entry.act.name()) else {
        return Ok(());
    };
    let Some(run) = &task_run.run else {
        return Ok(());
    };
    judge_by(cache, active, run.as_str(), task_run)
}

/// Puts the front of runs at a position that isn't older.
fn advance_runs(
    cache: &mut LabelledCache,
    active: &mut Places,
    journal: &Journal,
    to: u64,
) -> Result<(), AllocError>
    requires legal { IsLegal journal.now.history }
    requires order { cache.old.fronts.runs ≤ to }
    requires within { to ≤ length journal.now.history }
    requires shows { Shows (seen cache.old) journal.now.history }
    requires active { AreActive (seen cache.old).view active.old }
    ensures fronts { OnOk result (cache.new.fronts ≡ with_front Runs to cache.old.fronts) }
    ensures shows { OnOk result (Shows (seen cache.new) journal.now.history) }
    ensures active { OnOk result (AreActive (seen cache.new).view active.new) }
{
    let from = cache.cache().front().runs;
    for place in from..to {
        pass_run(cache, active, journal, place)?;
    }
    Ok(())
}

/// Puts the front of TaskRuns at a position that isn't older.
fn advance_task_runs(
    cache: &mut LabelledCache,
    active: &mut Places,
    journal: &Journal,
    to: u64,
) -> Result<(), AllocError>
    requires legal { IsLegal journal.now.history }
    requires order { cache.old.fronts.task_runs ≤ to }
    requires within { to ≤ length journal.now.history }
    requires shows { Shows (seen cache.old) journal.now.history }
    requires active { AreActive (seen cache.old).view active.old }
    ensures fronts { OnOk result (cache.new.fronts ≡ with_front TaskRuns to cache.old.fronts) }
    ensures shows { OnOk result (Shows (seen cache.new) journal.now.history) }
    ensures active { OnOk result (AreActive (seen cache.new).view active.new) }
{
    let from = cache.cache().front().task_runs;
    for place in from..to {
        pass_task_run(cache, active, journal, place)?;
    }
    Ok(())
}

/// Puts the front of pods at a position, which changes nothing of runs and TaskRuns.
fn list_pods(
    cache: &mut LabelledCache,
    active: &Places,
    journal: &Journal,
    position: u64,
) -> Result<(), AllocError>
    requires legal { IsLegal journal.now.history }
    requires within { position ≤ length journal.now.history }
    requires shows { Shows (seen cache.old) journal.now.history }
    requires active { AreActive (seen cache.old).view active.now }
    ensures fronts { OnOk result (cache.new.fronts ≡ with_front Pods position cache.old.fronts) }
    ensures shows { OnOk result (Shows (seen cache.new) journal.now.history) }
    ensures active { OnOk result (AreActive (seen cache.new).view active.now) }
{
    cache.relist(journal, Kind::Pods, position)?;
    Ok(())
}

/// Puts the kind's front at a position, be it an older one: all runs are judged anew.
fn list_anew(
    alloc: Global,
    cache: &mut LabelledCache,
    active: &mut Places,
    journal: &Journal,
    kind: Kind,
    position: u64,
) -> Result<(), AllocError>
    requires legal { IsLegal journal.now.history }
    requires within { position ≤ length journal.now.history }
    requires shows { Shows (seen cache.old) journal.now.history }
    ensures fronts { OnOk result (cache.new.fronts ≡ with_front kind position cache.old.fronts) }
    ensures shows { OnOk result (Shows (seen cache.new) journal.now.history) }
    ensures active { OnOk result (AreActive (seen cache.new).view active.new) }
{
    cache.relist(journal, kind, position)?;
    *active = judge_all(alloc, cache)?;
    Ok(())
}

/// Puts the kind's front at a position, be it an older one. Without memory nothing is known.
pub(crate) fn relist(
    alloc: Global,
    cache: &mut LabelledCache,
    active: &mut Places,
    journal: &Journal,
    kind: Kind,
    position: u64,
) -> Result<(), AllocError>
    requires legal { IsLegal journal.now.history }
    requires within { position ≤ length journal.now.history }
    requires shows { Shows (seen cache.old) journal.now.history }
    requires active { AreActive (seen cache.old).view active.old }
    ensures fronts { OnOk result (cache.new.fronts ≡ with_front kind position cache.old.fronts) }
    ensures shows { OnOk result (Shows (seen cache.new) journal.now.history) }
    ensures active { OnOk result (AreActive (seen cache.new).view active.new) }
{
    if position < front_of(kind, cache.cache().front()) {
        return list_anew(alloc, cache, active, journal, kind, position);
    }
    match kind {
        Kind::Runs => advance_runs(cache, active, journal, position),
        Kind::TaskRuns => advance_task_runs(cache, active, journal, position),
        Kind::Pods => list_pods(cache, active, journal, position),
    }
}
