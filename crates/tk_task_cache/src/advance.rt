//! How the places of TaskRuns that may act go from position to position.
ghost use Rattle.std.specs.Prelude.{◌≡◌, ◌≤◌, ◌<◌, ◌+◌, ◌^◌, length, IfOk, OnOk};
ghost use Rattle.tk_types.specs.declared.scenario.Kind.TheVariants.{Runs, TaskRuns, Pods};
ghost use Rattle.tk_journal.specs.Legal.{IsLegal};
ghost use Rattle.tk_cache.specs.Fronts.{Shows, with_front};
ghost use Rattle.tk_cache.specs.Views.{seen};
ghost use Rattle.tk_task_cache.specs.Acting.{AreFew, AreQueued};

use crate::acting::judge;
use std::alloc::{AllocError, Global};
use tk_cache::{Cache, front_of};
use tk_journal::Journal;
use tk_places::Places;
use tk_run_cache::RunCache;
use tk_types::Kind;

/// Judges all TaskRuns.
fn judge_all(alloc: Global, cache: &Cache) -> Result<Places, AllocError>
    requires few { AreFew (seen cache.now).view }
    ensures { IfOk result (λ queue. AreQueued (seen cache.now).view queue) }
{
    let mut queue = Places::new(alloc);
    for place in 0..cache.task_run_count() {
        judge(alloc, cache, &mut queue, cache.task_run_name(place))?;
    }
    Ok(queue)
}

/// The TaskRuns one position further.
fn pass_task_run(
    alloc: Global,
    cache: &mut RunCache,
    queue: &mut Places,
    journal: &Journal,
    place: u64,
) -> Result<(), AllocError>
    requires legal { IsLegal journal.now.history }
    requires within { place < length journal.now.history }
    requires small { place + 1 < 2 ^ 64 }
    requires at { cache.old.fronts.task_runs ≡ place }
    requires shows { Shows (seen cache.old) journal.now.history }
    requires queued { AreQueued (seen cache.old).view queue.old }
    ensures fronts { OnOk result (cache.new.fronts ≡ with_front TaskRuns (place + 1) cache.old.fronts) }
    ensures shows { OnOk result (Shows (seen cache.new) journal.now.history) }
    ensures queued { OnOk result (AreQueued (seen cache.new).view queue.new) }
{
    cache.relist(journal, Kind::TaskRuns, place + 1)?;
    let entry = journal.entry(place + 1);
    judge(alloc, cache.cache(), queue, entry.act.name())
}

/// The pods one position further: the TaskRun of the one that the entry names may no longer wait, or may wait now.
fn pass_pod(
    alloc: Global,
    cache: &mut RunCache,
    queue: &mut Places,
    journal: &Journal,
    place: u64,
) -> Result<(), AllocError>
    requires legal { IsLegal journal.now.history }
    requires within { place < length journal.now.history }
    requires small { place + 1 < 2 ^ 64 }
    requires at { cache.old.fronts.pods ≡ place }
    requires shows { Shows (seen cache.old) journal.now.history }
    requires queued { AreQueued (seen cache.old).view queue.old }
    ensures fronts { OnOk result (cache.new.fronts ≡ with_front Pods (place + 1) cache.old.fronts) }
    ensures shows { OnOk result (Shows (seen cache.new) journal.now.history) }
    ensures queued { OnOk result (AreQueued (seen cache.new).view queue.new) }
{
    cache.relist(journal, Kind::Pods, place + 1)?;
    let entry = journal.entry(place + 1);
    let Some(pod) = cache.cache().pod(entry.act.name()) else {
        return Ok(());
    };
    judge(alloc, cache.cache(), queue, pod.task_run.as_str())
}

/// Puts the front of TaskRuns at a position that isn't older.
fn advance_task_runs(
    alloc: Global,
    cache: &mut RunCache,
    queue: &mut Places,
    journal: &Journal,
    to: u64,
) -> Result<(), AllocError>
    requires legal { IsLegal journal.now.history }
    requires order { cache.old.fronts.task_runs ≤ to }
    requires within { to ≤ length journal.now.history }
    requires shows { Shows (seen cache.old) journal.now.history }
    requires queued { AreQueued (seen cache.old).view queue.old }
    ensures fronts { OnOk result (cache.new.fronts ≡ with_front TaskRuns to cache.old.fronts) }
    ensures shows { OnOk result (Shows (seen cache.new) journal.now.history) }
    ensures queued { OnOk result (AreQueued (seen cache.new).view queue.new) }
{
    let from = cache.cache().front().task_runs;
    for place in from..to {
        pass_task_run(alloc, cache, queue, journal, place)?;
    }
    Ok(())
}

/// Puts the front of pods at a position that isn't older.
fn advance_pods(
    alloc: Global,
    cache: &mut RunCache,
    queue: &mut Places,
    journal: &Journal,
    to: u64,
) -> Result<(), AllocError>
    requires legal { IsLegal journal.now.history }
    requires order { cache.old.fronts.pods ≤ to }
    requires within { to ≤ length journal.now.history }
    requires shows { Shows (seen cache.old) journal.now.history }
    requires queued { AreQueued (seen cache.old).view queue.old }
    ensures fronts { OnOk result (cache.new.fronts ≡ with_front Pods to cache.old.fronts) }
    ensures shows { OnOk result (Shows (seen cache.new) journal.now.history) }
    ensures queued { OnOk result (AreQueued (seen cache.new).view queue.new) }
{
    let from = cache.cache().front().pods;
    for place in from..to {
        pass_pod(alloc, cache, queue, journal, place)?;
    }
    Ok(())
}

/// Puts the front of runs at a position, which changes nothing of TaskRuns.
fn list_runs(
    cache: &mut RunCache,
    queue: &Places,
    journal: &Journal,
    position: u64,
) -> Result<(), AllocError>
    requires legal { IsLegal journal.now.history }
    requires within { position ≤ length journal.now.history }
    requires shows { Shows (seen cache.old) journal.now.history }
    requires queued { AreQueued (seen cache.old).view queue.now }
    ensures fronts { OnOk result (cache.new.fronts ≡ with_front Runs position cache.old.fronts) }
    ensures shows { OnOk result (Shows (seen cache.new) journal.now.history) }
    ensures queued { OnOk result (AreQueued (seen cache.new).view queue.now) }
{
    cache.relist(journal, Kind::Runs, position)?;
    Ok(())
}

/// Puts the kind's front at a position, be it an older one: all TaskRuns are judged anew.
fn list_anew(
    alloc: Global,
    cache: &mut RunCache,
    queue: &mut Places,
    journal: &Journal,
    kind: Kind,
    position: u64,
) -> Result<(), AllocError>
    requires legal { IsLegal journal.now.history }
    requires within { position ≤ length journal.now.history }
    requires shows { Shows (seen cache.old) journal.now.history }
    ensures fronts { OnOk result (cache.new.fronts ≡ with_front kind position cache.old.fronts) }
    ensures shows { OnOk result (Shows (seen cache.new) journal.now.history) }
    ensures queued { OnOk result (AreQueued (seen cache.new).view queue.new) }
{
    cache.relist(journal, kind, position)?;
    *queue = judge_all(alloc, cache.cache())?;
    Ok(())
}

/// Puts the kind's front at a position, be it an older one. Without memory nothing is known.
pub(crate) fn relist(
    alloc: Global,
    cache: &mut RunCache,
    queue: &mut Places,
    journal: &Journal,
    kind: Kind,
    position: u64,
) -> Result<(), AllocError>
    requires legal { IsLegal journal.now.history }
    requires within { position ≤ length journal.now.history }
    requires shows { Shows (seen cache.old) journal.now.history }
    requires queued { AreQueued (seen cache.old).view queue.old }
    ensures fronts { OnOk result (cache.new.fronts ≡ with_front kind position cache.old.fronts) }
    ensures shows { OnOk result (Shows (seen cache.new) journal.now.history) }
    ensures queued { OnOk result (AreQueued (seen cache.new).view queue.new) }
{
    if position < front_of(kind, cache.cache().front()) {
        return list_anew(alloc, cache, queue, journal, kind, position);
    }
    match kind {
        Kind::Runs => list_runs(cache, queue, journal, position),
        Kind::TaskRuns => advance_task_runs(alloc, cache, queue, journal, position),
        Kind::Pods => advance_pods(alloc, cache, queue, journal, position),
    }
}
