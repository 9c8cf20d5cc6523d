//! Watching a pod's steps.
ghost use Rattle.std.specs.Prelude.{◌≡◌, ◌<◌, ◌≤◌, ◌⊎◌, ℕ, Some, slice_get, length, true, false, IfOk, OnOk};
ghost use Rattle.tk_edge.specs.Causes.{Counts};
ghost use Rattle.tk_steps.specs.Watched.{children_of, IsWatchedAt, IsWatchedPod, WatchesAt, WatchesPod};
ghost use Rattle.tk_steps.specs.Held.{HoldsPod};
ghost use Rattle.tk_steps.specs.Played.{WatchesStep, WatchesFrom};
ghost use Rattle.tk_steps.specs.Ready.{ReadyIsSo};
ghost use Rattle.tk_steps.specs.Moves.{Moves, Acts, seen as the_seen, acts as the_acts, counted};

use crate::held::{HeldPod, HeldStep};
use std::alloc::AllocError;
use tk_edge::{Host, Miss, Watch};
use tk_types::Text;

/// What an answer shows of the step.
fn seen(watch: Watch, step: HeldStep) -> HeldStep
    ensures { result ≡ the_seen watch step }
{
    let mut seen = step;
    match watch {
        Watch::Passed { exit } | Watch::Broke { exit: Some(exit) } => seen.exit = Some(exit),
        Watch::Broke { exit: None } => seen.refused = true,
        _ => {}
    }
    seen
}

/// Whether it shows a start, or an end for the first time.
fn acts(watch: Watch, step: HeldStep) -> bool
    ensures { result ≡ the_acts watch step }
{
    match watch {
        Watch::Started => true,
        Watch::Passed { .. } | Watch::Broke { exit: Some(_) } => step.exit.is_none(),
        Watch::Broke { exit: None } => !step.refused,
        _ => false,
    }
}

/// Watches one armed step.
fn watch_step<H: Host>(
    host: &mut H,
    root: &Text,
    pod: &mut HeldPod,
    place: usize,
) -> Result<bool, Miss>
    requires within { place < length pod.old.steps.items }
    requires holds { HoldsPod (H.told host.old) pod.old }
    ensures moves { Moves root.now pod.old pod.new (H.told host.old) (H.told host.new) }
    ensures stays { ReadyIsSo root.now pod.old (H.told host.old) → ReadyIsSo root.now pod.new (H.told host.new) }
    ensures actions { IfOk result (λ acted. Acts acted (H.told host.old) (H.told host.new)) }
    ensures steps { length pod.new.steps.items ≡ length pod.old.steps.items }
    ensures failed { pod.new.failed ≡ pod.old.failed }
    ensures killed { H.killed host.new ≡ H.killed host.old }
    ensures plays { H.plays host.new ≡ H.plays host.old }
    ensures count { Counts (H.faults host.old) (H.faults host.new) result }
    ensures children { children_of pod.new ≡ children_of pod.old }
    ensures watched { OnOk result (IsWatchedAt pod.old place (H.watches host.old) (H.watches host.new)) }
    ensures turn { OnOk result ((child : ℕ) → slice_get (children_of pod.old) place ≡ Some child
        → WatchesStep (H.plays host.old) (H.killed host.old) pod.old.name place child (H.told host.old) (H.told host.new)) }
    ensures only { WatchesAt pod.old place (H.watches host.old) (H.watches host.new) }
{
    let step = pod.steps[place];
    let watch = host.watch(step.child)?;
    pod.steps[place] = seen(watch, step);
    Ok(acts(watch, step))
}

/// Watches each armed step of the pod once, in order.
fn watch_steps<H: Host>(host: &mut H, root: &Text, pod: &mut HeldPod) -> Result<bool, Miss>
    requires holds { HoldsPod (H.told host.old) pod.old }
    ensures moves { Moves root.now pod.old pod.new (H.told host.old) (H.told host.new) }
    ensures stays { ReadyIsSo root.now pod.old (H.told host.old) → ReadyIsSo root.now pod.new (H.told host.new) }
    ensures actions { IfOk result (λ acted. Acts acted (H.told host.old) (H.told host.new)) }
    ensures steps { length pod.new.steps.items ≡ length pod.old.steps.items }
    ensures failed { pod.new.failed ≡ pod.old.failed }
    ensures killed { H.killed host.new ≡ H.killed host.old }
    ensures plays { H.plays host.new ≡ H.plays host.old }
    ensures count { Counts (H.faults host.old) (H.faults host.new) result }
    ensures children { children_of pod.new ≡ children_of pod.old }
    ensures watched { OnOk result (IsWatchedPod pod.old (H.watches host.old) (H.watches host.new)) }
    ensures turns { OnOk result (WatchesFrom (H.plays host.old) (H.killed host.old) pod.old.name 0 (children_of pod.old)
        (H.told host.old) (H.told host.new)) }
    ensures only { WatchesPod pod.old (H.watches host.old) (H.watches host.new) }
{
    let mut acted = false;
    for place in 0..pod.steps.len() {
        acted |= watch_step(host, root, pod, place)?;
    }
    Ok(acted)
}

/// Watches each armed step of the pod once, in order, up to a call that fails; that is kept with the pod. Answers
/// whether a step started, or ended for the first time.
pub fn watch<H: Host>(host: &mut H, root: &Text, pod: &mut HeldPod) -> Result<bool, AllocError>
    requires holds { HoldsPod (H.told host.old) pod.old }
    requires not_failed { pod.old.failed ≡ false }
    ensures moves { Moves root.now pod.old pod.new (H.told host.old) (H.told host.new) }
    ensures stays { ReadyIsSo root.now pod.old (H.told host.old) → ReadyIsSo root.now pod.new (H.told host.new) }
    ensures actions { IfOk result (λ acted. pod.new.failed ≡ false → Acts acted (H.told host.old) (H.told host.new)) }
    ensures steps { length pod.new.steps.items ≡ length pod.old.steps.items }
    ensures killed { H.killed host.new ≡ H.killed host.old }
    ensures plays { H.plays host.new ≡ H.plays host.old }
    ensures count { H.faults host.new ≡ counted pod.new.failed (H.faults host.old) }
    ensures children { children_of pod.new ≡ children_of pod.old }
    ensures watched { OnOk result (pod.new.failed ≡ false → IsWatchedPod pod.old (H.watches host.old) (H.watches host.new)) }
    ensures turns { OnOk result (pod.new.failed ≡ false → WatchesFrom (H.plays host.old) (H.killed host.old) pod.old.name 0
        (children_of pod.old) (H.told host.old) (H.told host.new)) }
    ensures only { WatchesPod pod.old (H.watches host.old) (H.watches host.new) }
{
    match watch_steps(host, root, pod) {
        Ok(acted) => Ok(acted),
        Err(Miss::Failed) => {
            pod.failed = true;
            Ok(false)
        }
        Err(Miss::Memory) => Err(AllocError),
    }
}
