//! What a turn does for the held pods, before its entry.
ghost use Rattle.std.specs.Prelude.{◌≡◌, ◌-◌, false, IfOk, OnOk};
ghost use Rattle.tk_cache.specs.Views.{seen};
ghost use Rattle.tk_steps.specs.Kills.{CountsKills};
ghost use Rattle.tk_steps.specs.Moves.{Acts};
ghost use Rattle.tk_held.specs.Placed.{ArePlaced, StayReady};
ghost use Rattle.tk_held.specs.Played.{ArePlayed};
ghost use Rattle.tk_held.specs.Pods.{AreApart, AreDone, KeepsAll, MovesAll, RoseBy, StayFailed, count_failed as the_failed};
ghost use Rattle.tk_held.specs.Settling.{AreKilled, SparesOthers, StayKilled};
ghost use Rattle.tk_held.specs.Watched.{AreWatched, WatchesMost, WatchesOnly};

use crate::phases::{arm_all, settle_all, watch_all};
use std::alloc::{AllocError, Global};
use tk_cache::Cache;
use tk_edge::Host;
use tk_steps::HeldPod;
use tk_types::Text;

/// What a turn's calls for the held pods came to: whether some call failed, and whether a step started, or ended for the
/// first time.
#[derive(Clone, Copy, Debug, PartialEq, Eq)]
pub struct Ran {
    pub failed: bool,
    pub acted: bool,
}

/// Of how many pods a call failed.
pub fn count_failed(held: &[HeldPod]) -> usize
    ensures { result ≡ the_failed held.now }
{
    let mut count = 0;
    for place in 0..held.len() {
        if held[place].failed {
            count += 1;
        }
    }
    count
}

/// The three phases, one after the other.
fn run_all<H: Host>(
    alloc: Global,
    cache: &Cache,
    host: &mut H,
    root: &Text,
    moment: u64,
    held: &mut [HeldPod],
) -> Result<Ran, AllocError>
    requires keeps { KeepsAll (H.told host.old) held.old }
    requires apart { AreApart held.old }
    ensures moves { MovesAll root.now held.old held.new (H.told host.old) (H.told host.new) }
    ensures ready { ArePlaced root.now held.old → StayReady root.now held.old held.new (H.told host.old) (H.told host.new) }
    ensures failed { StayFailed held.old held.new }
    ensures done { OnOk result (AreDone (seen cache.now).view moment held.new) }
    ensures watched { OnOk result (AreWatched (seen cache.now).view moment held.new (H.watches host.old) (H.watches host.new)) }
    ensures played { OnOk result (ArePlayed (seen cache.now).view moment held.new
        (H.plays host.old) (H.killed host.new) (H.told host.old) (H.told host.new)) }
    ensures only { WatchesOnly (seen cache.now).view moment held.new (H.watches host.old) (H.watches host.new) }
    ensures once { WatchesMost (H.watches host.old) (H.watches host.new) }
    ensures killed { AreKilled (seen cache.now).view moment (H.killed host.new) held.old }
    ensures still { StayKilled (H.killed host.old) (H.killed host.new) }
    ensures spares { SparesOthers (seen cache.now).view moment held.old (H.killed host.old) (H.killed host.new) }
    ensures plays { H.plays host.new ≡ H.plays host.old }
    ensures few { RoseBy (the_failed held.new - the_failed held.old) (H.faults host.old) (H.faults host.new) }
    ensures count { IfOk result (λ ran. CountsKills ran.failed (H.faults host.old) (H.faults host.new)) }
    ensures actions { IfOk result (λ ran. ran.failed ≡ false → Acts ran.acted (H.told host.old) (H.told host.new)) }
{
    let before = count_failed(held);
    let killing = settle_all(cache, host, moment, held);
    arm_all(alloc, cache, host, root, moment, held)?;
    let acted = watch_all(cache, host, root, moment, held)?;
    let failing = count_failed(held) != before;
    Ok(Ran {
        failed: killing | failing,
        acted,
    })
}

/// Kills what runs of the settled pods, arms every step of each other pod of which no call failed, and watches each armed
/// step of these once, in order. A call that fails is kept with its pod, and its count rises by one; a failed kill is
/// counted alone. The only error is want of memory; all that is held then stays so.
pub fn run_pods<H: Host>(
    alloc: Global,
    cache: &Cache,
    host: &mut H,
    root: &Text,
    moment: u64,
    held: &mut Vec<HeldPod>,
) -> Result<Ran, AllocError>
    requires keeps { KeepsAll (H.told host.old) held.old.items }
    requires apart { AreApart held.old.items }
    ensures moves { MovesAll root.now held.old.items held.new.items (H.told host.old) (H.told host.new) }
    ensures ready { ArePlaced root.now held.old.items → StayReady root.now held.old.items held.new.items (H.told host.old) (H.told host.new) }
    ensures failed { StayFailed held.old.items held.new.items }
    ensures done { OnOk result (AreDone (seen cache.now).view moment held.new.items) }
    ensures watched { OnOk result (AreWatched (seen cache.now).view moment held.new.items (H.watches host.old) (H.watches host.new)) }
    ensures played { OnOk result (ArePlayed (seen cache.now).view moment held.new.items
        (H.plays host.old) (H.killed host.new) (H.told host.old) (H.told host.new)) }
    ensures only { WatchesOnly (seen cache.now).view moment held.new.items (H.watches host.old) (H.watches host.new) }
    ensures once { WatchesMost (H.watches host.old) (H.watches host.new) }
    ensures killed { AreKilled (seen cache.now).view moment (H.killed host.new) held.old.items }
    ensures still { StayKilled (H.killed host.old) (H.killed host.new) }
    ensures spares { SparesOthers (seen cache.now).view moment held.old.items (H.killed host.old) (H.killed host.new) }
    ensures plays { H.plays host.new ≡ H.plays host.old }
    ensures few { RoseBy (the_failed held.new.items - the_failed held.old.items) (H.faults host.old) (H.faults host.new) }
    ensures count { IfOk result (λ ran. CountsKills ran.failed (H.faults host.old) (H.faults host.new)) }
    ensures actions { IfOk result (λ ran. ran.failed ≡ false → Acts ran.acted (H.told host.old) (H.told host.new)) }
{
    run_all(alloc, cache, host, root, moment, held)
}
