//! The phases of a turn for the held pods: what runs of the settled ones is killed, the others are armed and watched.
ghost use Rattle.std.specs.Prelude.{◌≡◌, ◌≢◌, ◌<◌, length, None, IfOk, OnOk};
ghost use Rattle.tk_cache.specs.Views.{seen};
ghost use Rattle.tk_steps.specs.Held.{HoldsPod};
ghost use Rattle.tk_steps.specs.Kills.{CountsKills};
ghost use Rattle.tk_steps.specs.Moves.{Acts, count_actions};
ghost use Rattle.tk_held.specs.Placed.{ArePlaced, StayReady};
ghost use Rattle.tk_held.specs.Played.{ArePlayed, IsPlayedAt};
ghost use Rattle.tk_held.specs.Pods.{AreApart, AreDone, IsDoneAt, KeepsAll, MovesAll, Rises, SameBut, StayFailed, StaysDone, count_failed as the_failed};
ghost use Rattle.tk_held.specs.Settled.{settled_in};
ghost use Rattle.tk_held.specs.Settling.{AreKilled, IsKilledPod, SparesAllBut, SparesOthers, StayKilled, is_left_out as the_left_out};
ghost use Rattle.tk_held.specs.Watched.{AreWatched, IsWatchedAt, WatchesOnly, WatchesOnlyAt};

use crate::judging::judge;
use std::alloc::{AllocError, Global};
use tk_cache::Cache;
use tk_edge::Host;
use tk_steps::{HeldPod, arm, kill, watch};
use tk_types::Text;

/// Whether the pod is settled, or a call for it failed.
fn is_left_out(cache: &Cache, moment: u64, pod: &HeldPod) -> bool
    ensures { result ≡ the_left_out (seen cache.now).view moment pod.now }
{
    pod.failed || judge(cache, pod.name.as_str(), moment).is_some()
}

/// Arms the pod at a place, where it is neither settled nor failed.
fn arm_at<H: Host>(
    alloc: Global,
    cache: &Cache,
    host: &mut H,
    root: &Text,
    moment: u64,
    held: &mut [HeldPod],
    place: usize,
) -> Result<(), AllocError>
    requires within { place < length held.old }
    requires keeps { KeepsAll (H.told host.old) held.old }
    requires apart { AreApart held.old }
    ensures moves { MovesAll root.now held.old held.new (H.told host.old) (H.told host.new) }
    ensures ready { ArePlaced root.now held.old → StayReady root.now held.old held.new (H.told host.old) (H.told host.new) }
    ensures rises { Rises held.old held.new (H.faults host.old) (H.faults host.new) }
    ensures failed { StayFailed held.old held.new }
    ensures done { OnOk result (IsDoneAt (seen cache.now).view moment held.new place) }
    ensures others { SameBut place held.old held.new }
    ensures quiet { count_actions (H.told host.new) ≡ count_actions (H.told host.old) }
    ensures killed { H.killed host.new ≡ H.killed host.old }
    ensures watches { H.watches host.new ≡ H.watches host.old }
    ensures plays { H.plays host.new ≡ H.plays host.old }
{
    if is_left_out(cache, moment, &held[place]) {
        return Ok(());
    }
    arm(alloc, host, root, &mut held[place])
}

/// Arms every step of each pod that is neither settled nor failed.
pub(crate) fn arm_all<H: Host>(
    alloc: Global,
    cache: &Cache,
    host: &mut H,
    root: &Text,
    moment: u64,
    held: &mut [HeldPod],
) -> Result<(), AllocError>
    requires keeps { KeepsAll (H.told host.old) held.old }
    requires apart { AreApart held.old }
    ensures moves { MovesAll root.now held.old held.new (H.told host.old) (H.told host.new) }
    ensures ready { ArePlaced root.now held.old → StayReady root.now held.old held.new (H.told host.old) (H.told host.new) }
    ensures rises { Rises held.old held.new (H.faults host.old) (H.faults host.new) }
    ensures failed { StayFailed held.old held.new }
    ensures done { OnOk result (AreDone (seen cache.now).view moment held.new) }
    ensures quiet { count_actions (H.told host.new) ≡ count_actions (H.told host.old) }
    ensures killed { H.killed host.new ≡ H.killed host.old }
    ensures watches { H.watches host.new ≡ H.watches host.old }
    ensures plays { H.plays host.new ≡ H.plays host.old }
{
    for place in 0..held.len() {
        arm_at(alloc, cache, host, root, moment, held, place)?;
    }
    Ok(())
}

/// Watches the steps of the pod at a place, where it is neither settled nor failed.
fn watch_at<H: Host>(
    cache: &Cache,
    host: &mut H,
    root: &Text,
    moment: u64,
    held: &mut [HeldPod],
    place: usize,
) -> Result<bool, AllocError>
    requires within { place < length held.old }
    requires keeps { KeepsAll (H.told host.old) held.old }
    requires apart { AreApart held.old }
    ensures moves { MovesAll root.now held.old held.new (H.told host.old) (H.told host.new) }
    ensures ready { ArePlaced root.now held.old → StayReady root.now held.old held.new (H.told host.old) (H.told host.new) }
    ensures rises { Rises held.old held.new (H.faults host.old) (H.faults host.new) }
    ensures failed { StayFailed held.old held.new }
    ensures actions { IfOk result (λ acted. the_failed held.new ≡ the_failed held.old → Acts acted (H.told host.old) (H.told host.new)) }
    ensures done { StaysDone held.old held.new }
    ensures others { SameBut place held.old held.new }
    ensures killed { H.killed host.new ≡ H.killed host.old }
    ensures plays { H.plays host.new ≡ H.plays host.old }
    ensures watched { OnOk result (IsWatchedAt (seen cache.now).view moment held.new place (H.watches host.old) (H.watches host.new)) }
    ensures played { OnOk result (IsPlayedAt (seen cache.now).view moment held.new place
        (H.plays host.old) (H.killed host.old) (H.told host.old) (H.told host.new)) }
    ensures only { WatchesOnlyAt (seen cache.now).view moment held.new place (H.watches host.old) (H.watches host.new) }
{
    if is_left_out(cache, moment, &held[place]) {
        return Ok(false);
    }
    watch(host, root, &mut held[place])
}

/// Watches each armed step of each pod that is neither settled nor failed. Answers whether a step started, or ended for
/// the first time.
pub(crate) fn watch_all<H: Host>(
    cache: &Cache,
    host: &mut H,
    root: &Text,
    moment: u64,
    held: &mut [HeldPod],
) -> Result<bool, AllocError>
    requires keeps { KeepsAll (H.told host.old) held.old }
    requires apart { AreApart held.old }
    ensures moves { MovesAll root.now held.old held.new (H.told host.old) (H.told host.new) }
    ensures ready { ArePlaced root.now held.old → StayReady root.now held.old held.new (H.told host.old) (H.told host.new) }
    ensures rises { Rises held.old held.new (H.faults host.old) (H.faults host.new) }
    ensures failed { StayFailed held.old held.new }
    ensures actions { IfOk result (λ acted. the_failed held.new ≡ the_failed held.old → Acts acted (H.told host.old) (H.told host.new)) }
    ensures done { StaysDone held.old held.new }
    ensures killed { H.killed host.new ≡ H.killed host.old }
    ensures plays { H.plays host.new ≡ H.plays host.old }
    ensures watched { OnOk result (AreWatched (seen cache.now).view moment held.new (H.watches host.old) (H.watches host.new)) }
    ensures played { OnOk result (ArePlayed (seen cache.now).view moment held.new
        (H.plays host.old) (H.killed host.old) (H.told host.old) (H.told host.new)) }
    ensures only { WatchesOnly (seen cache.now).view moment held.new (H.watches host.old) (H.watches host.new) }
{
    let mut acted = false;
    for place in 0..held.len() {
        acted |= watch_at(cache, host, root, moment, held, place)?;
    }
    Ok(acted)
}

/// Kills what runs of the pod, where it is settled. Answers whether a call failed.
fn settle_at<H: Host>(cache: &Cache, host: &mut H, moment: u64, pod: &HeldPod) -> bool
    requires holds { HoldsPod (H.told host.old) pod.now }
    ensures told { H.told host.new ≡ H.told host.old }
    ensures watches { H.watches host.new ≡ H.watches host.old }
    ensures plays { H.plays host.new ≡ H.plays host.old }
    ensures killed { settled_in (seen cache.now).view moment pod.now.name ≢ None → IsKilledPod (H.killed host.new) pod.now }
    ensures still { StayKilled (H.killed host.old) (H.killed host.new) }
    ensures only { SparesAllBut (seen cache.now).view moment pod.now (H.killed host.old) (H.killed host.new) }
    ensures count { CountsKills result (H.faults host.old) (H.faults host.new) }
{
    judge(cache, pod.name.as_str(), moment).is_some() && kill(host, pod)
}

/// Kills what runs of each settled pod. Answers whether a call failed.
pub(crate) fn settle_all<H: Host>(
    cache: &Cache,
    host: &mut H,
    moment: u64,
    held: &[HeldPod],
) -> bool
    requires keeps { KeepsAll (H.told host.old) held.now }
    ensures told { H.told host.new ≡ H.told host.old }
    ensures watches { H.watches host.new ≡ H.watches host.old }
    ensures plays { H.plays host.new ≡ H.plays host.old }
    ensures killed { AreKilled (seen cache.now).view moment (H.killed host.new) held.now }
    ensures still { StayKilled (H.killed host.old) (H.killed host.new) }
    ensures only { SparesOthers (seen cache.now).view moment held.now (H.killed host.old) (H.killed host.new) }
    ensures count { CountsKills result (H.faults host.old) (H.faults host.new) }
{
    let mut failed = false;
    for place in 0..held.len() {
        failed |= settle_at(cache, host, moment, &held[place]);
    }
    failed
}
