//! How a cache and the marks of pods go from position to position.

ghost use Rattle.std.specs.Prelude.{◌≡◌, ◌≤◌, ◌<◌, ◌+◌, ◌^◌, length, OnOk};
ghost use Rattle.tk_types.specs.declared.scenario.Kind.TheVariants.{Pods};
ghost use Rattle.tk_journal.specs.History.{front_of as the_front};
ghost use Rattle.tk_journal.specs.Legal.{IsLegal};
ghost use Rattle.tk_cache.specs.Fronts.{Shows, with_front};
ghost use Rattle.tk_cache.specs.Views.{seen};
ghost use Rattle.tk_pod_cache.specs.Marks.{ArePodsMarked};

use crate::marks::{PodMarks, judge, no_marks};
use std::alloc::{AllocError, Global};
use tk_cache::Cache;
use tk_cache::laws::{fronts_decide, one_passes};
use tk_journal::Journal;
use tk_types::Kind;

/// The pods one position further.
fn pass_pod(
    cache: &mut Cache,
    marks: &mut PodMarks,
    journal: &Journal,
    place: u64,
) -> Result<(), AllocError>
    requires legal { IsLegal journal.now.history }
    requires within { place < length journal.now.history }
    requires small { place + 1 < 2 ^ 64 }
    requires at { cache.old.fronts.pods ≡ place }
    requires shows { Shows (seen cache.old) journal.now.history }
    requires marked { ArePodsMarked (seen cache.old).view marks.old }
    ensures fronts { OnOk result (cache.new.fronts ≡ with_front Pods (place + 1) cache.old.fronts) }
    ensures shows { OnOk result (Shows (seen cache.new) journal.now.history) }
    ensures marked { OnOk result (ArePodsMarked (seen cache.new).view marks.new) }
{
    one_passes();
    cache.relist(journal, Kind::Pods, place + 1)?;
    judge(cache, marks, journal.entry(place + 1).act.name())?;
    Ok(())
}

/// Puts the front of pods at a position that isn't older.
fn advance_pods(
    cache: &mut Cache,
    marks: &mut PodMarks,
    journal: &Journal,
    to: u64,
) -> Result<(), AllocError>
    requires legal { IsLegal journal.now.history }
    requires order { cache.old.fronts.pods ≤ to }
    requires within { to ≤ length journal.now.history }
    requires shows { Shows (seen cache.old) journal.now.history }
    requires marked { ArePodsMarked (seen cache.old).view marks.old }
    ensures fronts { OnOk result (cache.new.fronts ≡ with_front Pods to cache.old.fronts) }
    ensures shows { OnOk result (Shows (seen cache.new) journal.now.history) }
    ensures marked { OnOk result (ArePodsMarked (seen cache.new).view marks.new) }
{
    let from = cache.front().pods;
    for place in from..to {
        pass_pod(cache, marks, journal, place)?;
    }
    Ok(())
}

/// Puts the front of pods at a position, be it an older one: all pods are judged anew.
fn start_over(
    alloc: Global,
    cache: &mut Cache,
    marks: &mut PodMarks,
    journal: &Journal,
    to: u64,
) -> Result<(), AllocError>
    requires legal { IsLegal journal.now.history }
    requires within { to ≤ length journal.now.history }
    requires shows { Shows (seen cache.old) journal.now.history }
    ensures fronts { OnOk result (cache.new.fronts ≡ with_front Pods to cache.old.fronts) }
    ensures shows { OnOk result (Shows (seen cache.new) journal.now.history) }
    ensures marked { OnOk result (ArePodsMarked (seen cache.new).view marks.new) }
{
    *marks = no_marks(alloc);
    cache.relist(journal, Kind::Pods, 0)?;
    advance_pods(cache, marks, journal, to)?;
    Ok(())
}

/// Puts the front of pods at a position.
fn list_pods(
    alloc: Global,
    cache: &mut Cache,
    marks: &mut PodMarks,
    journal: &Journal,
    position: u64,
) -> Result<(), AllocError>
    requires legal { IsLegal journal.now.history }
    requires within { position ≤ length journal.now.history }
    requires shows { Shows (seen cache.old) journal.now.history }
    requires marked { ArePodsMarked (seen cache.old).view marks.old }
    ensures fronts { OnOk result (cache.new.fronts ≡ with_front Pods position cache.old.fronts) }
    ensures shows { OnOk result (Shows (seen cache.new) journal.now.history) }
    ensures marked { OnOk result (ArePodsMarked (seen cache.new).view marks.new) }
{
    if position < cache.front().pods {
        return start_over(alloc, cache, marks, journal, position);
    }
    advance_pods(cache, marks, journal, position)
}

/// Puts the front of runs or of TaskRuns at a position, which changes nothing of pods.
fn list_others(
    cache: &mut Cache,
    marks: &PodMarks,
    journal: &Journal,
    kind: Kind,
    position: u64,
) -> Result<(), AllocError>
    requires legal { IsLegal journal.now.history }
    requires within { position ≤ length journal.now.history }
    requires shows { Shows (seen cache.old) journal.now.history }
    requires other { the_front Pods (with_front kind position cache.old.fronts) ≡ cache.old.fronts.pods }
    requires marked { ArePodsMarked (seen cache.old).view marks.now }
    ensures fronts { OnOk result (cache.new.fronts ≡ with_front kind position cache.old.fronts) }
    ensures shows { OnOk result (Shows (seen cache.new) journal.now.history) }
    ensures marked { OnOk result (ArePodsMarked (seen cache.new).view marks.now) }
{
    fronts_decide();
    cache.relist(journal, kind, position)?;
    Ok(())
}

/// Puts the kind's front at a position, be it an older one. Without memory nothing is known.
pub(crate) fn relist(
    alloc: Global,
    cache: &mut Cache,
    marks: &mut PodMarks,
    journal: &Journal,
    kind: Kind,
    position: u64,
) -> Result<(), AllocError>
    requires legal { IsLegal journal.now.history }
    requires within { position ≤ length journal.now.history }
    requires shows { Shows (seen cache.old) journal.now.history }
    requires marked { ArePodsMarked (seen cache.old).view marks.old }
    ensures fronts { OnOk result (cache.new.fronts ≡ with_front kind position cache.old.fronts) }
    ensures shows { OnOk result (Shows (seen cache.new) journal.now.history) }
    ensures marked { OnOk result (ArePodsMarked (seen cache.new).view marks.new) }
{
    match kind {
        Kind::Runs | Kind::TaskRuns => list_others(cache, marks, journal, kind, position),
        Kind::Pods => list_pods(alloc, cache, marks, journal, position),
    }
}
