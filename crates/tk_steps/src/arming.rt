//! Arming a pod: its folder is made, and each of its steps is armed, once.
ghost use Rattle.std.specs.Prelude.{◌≡◌, ◌<◌, ◌≤◌, ◌+◌, [], length, true, false, OnOk, OnErr};
ghost use Rattle.tk_pod.specs.Exits.{continues as the_keep};
ghost use Rattle.tk_edge.specs.Causes.{Counts};
ghost use Rattle.tk_steps.specs.Held.{IsPlanOf, HoldsPod};
ghost use Rattle.tk_steps.specs.Moves.{Moves, count_actions, counted};
ghost use Rattle.tk_steps.specs.Ready.{IsReady, ReadyIsSo};

use crate::files::{clear_own, put_own};
use crate::held::{HeldPod, HeldStep};
use crate::paths::{folder_of, post_path, start_path, wait_path};
use crate::scripts::put_scripts;
use crate::spaces::{clear_spaces, put_spaces};
use std::alloc::{AllocError, Global};
use tk_edge::{Host, Miss};
use tk_types::Text;

/// Makes the pod's folder, with the folders of its workspaces, its start file and its scripts.
fn prepare<H: Host>(alloc: Global, host: &mut H, root: &Text, pod: &HeldPod) -> Result<(), Miss>
    requires plan { IsPlanOf pod.now.name pod.now.plan }
    requires unarmed { pod.now.steps.items ≡ [] }
    requires holds { HoldsPod (H.told host.old) pod.now }
    ensures ready { OnOk result (IsReady root.now pod.now.name pod.now.plan (H.told host.new)) }
    ensures moves { Moves root.now pod.now pod.now (H.told host.old) (H.told host.new) }
    ensures quiet { count_actions (H.told host.new) ≡ count_actions (H.told host.old) }
    ensures killed { H.killed host.new ≡ H.killed host.old }
    ensures watches { H.watches host.new ≡ H.watches host.old }
    ensures plays { H.plays host.new ≡ H.plays host.old }
    ensures count { Counts (H.faults host.old) (H.faults host.new) result }
{
    let folder = folder_of(alloc, root, &pod.name)?;
    let start = start_path(alloc, root, &pod.name)?;
    clear_own(host, root, pod, &folder)?;
    clear_spaces(alloc, host, root, pod)?;
    put_spaces(alloc, host, root, pod)?;
    put_own(host, root, pod, &start, &[])?;
    put_scripts(alloc, host, root, pod)
}

pub(crate) fn keeps_going(keep: u32, step: u32) -> bool
    requires { step < 32 }
    ensures { result ≡ the_keep keep step }
{
    (keep >> step) % 2 == 1
}

/// Arms the next step. Room for it is made first, so that an armed step is always held.
fn launch_next<H: Host>(
    alloc: Global,
    host: &mut H,
    root: &Text,
    pod: &mut HeldPod,
) -> Result<(), Miss>
    requires plan { IsPlanOf pod.old.name pod.old.plan }
    requires ready { pod.old.ready ≡ true }
    requires more { length pod.old.steps.items < length pod.old.plan.orders }
    requires holds { HoldsPod (H.told host.old) pod.old }
    ensures moves { Moves root.now pod.old pod.new (H.told host.old) (H.told host.new) }
    ensures stays { ReadyIsSo root.now pod.old (H.told host.old) → ReadyIsSo root.now pod.new (H.told host.new) }
    ensures ready { pod.new.ready ≡ true }
    ensures failed { pod.new.failed ≡ pod.old.failed }
    ensures armed { OnOk result (length pod.new.steps.items ≡ length pod.old.steps.items + 1) }
    ensures kept { OnErr result (length pod.new.steps.items ≡ length pod.old.steps.items) }
    ensures quiet { count_actions (H.told host.new) ≡ count_actions (H.told host.old) }
    ensures killed { H.killed host.new ≡ H.killed host.old }
    ensures watches { H.watches host.new ≡ H.watches host.old }
    ensures plays { H.plays host.new ≡ H.plays host.old }
    ensures count { Counts (H.faults host.old) (H.faults host.new) result }
{
    let place = pod.steps.len();
    pod.steps.reserve(1)?;
    let step = place as u32;
    let wait = wait_path(alloc, root, &pod.name, step)?;
    let post = post_path(alloc, root, &pod.name, step)?;
    let order = &pod.plan.orders.as_slice()[place];
    let keep_going = keeps_going(pod.plan.keep, step);
    let child = host.launch(order, wait.as_str(), post.as_str(), keep_going)?;
    pod.steps.push(HeldStep {
        child,
        exit: None,
        refused: false,
    })?;
    Ok(())
}

/// Makes the pod's folder, where that isn't done yet.
fn make_ready<H: Host>(
    alloc: Global,
    host: &mut H,
    root: &Text,
    pod: &mut HeldPod,
) -> Result<(), Miss>
    requires plan { IsPlanOf pod.old.name pod.old.plan }
    requires holds { HoldsPod (H.told host.old) pod.old }
    ensures moves { Moves root.now pod.old pod.new (H.told host.old) (H.told host.new) }
    ensures stays { ReadyIsSo root.now pod.old (H.told host.old) → ReadyIsSo root.now pod.new (H.told host.new) }
    ensures ready { OnOk result (pod.new.ready ≡ true) }
    ensures failed { pod.new.failed ≡ pod.old.failed }
    ensures steps { pod.new.steps.items ≡ pod.old.steps.items }
    ensures quiet { count_actions (H.told host.new) ≡ count_actions (H.told host.old) }
    ensures killed { H.killed host.new ≡ H.killed host.old }
    ensures watches { H.watches host.new ≡ H.watches host.old }
    ensures plays { H.plays host.new ≡ H.plays host.old }
    ensures count { Counts (H.faults host.old) (H.faults host.new) result }
{
    if pod.ready {
        return Ok(());
    }
    prepare(alloc, host, root, pod)?;
    pod.ready = true;
    Ok(())
}

/// Arms the steps that aren't armed yet.
fn launch_rest<H: Host>(
    alloc: Global,
    host: &mut H,
    root: &Text,
    pod: &mut HeldPod,
) -> Result<(), Miss>
    requires plan { IsPlanOf pod.old.name pod.old.plan }
    requires ready { pod.old.ready ≡ true }
    requires holds { HoldsPod (H.told host.old) pod.old }
    requires within { length pod.old.steps.items ≤ length pod.old.plan.orders }
    ensures moves { Moves root.now pod.old pod.new (H.told host.old) (H.told host.new) }
    ensures stays { ReadyIsSo root.now pod.old (H.told host.old) → ReadyIsSo root.now pod.new (H.told host.new) }
    ensures failed { pod.new.failed ≡ pod.old.failed }
    ensures armed { OnOk result (length pod.new.steps.items ≡ length pod.old.plan.orders) }
    ensures within { length pod.new.steps.items ≤ length pod.old.plan.orders }
    ensures quiet { count_actions (H.told host.new) ≡ count_actions (H.told host.old) }
    ensures killed { H.killed host.new ≡ H.killed host.old }
    ensures watches { H.watches host.new ≡ H.watches host.old }
    ensures plays { H.plays host.new ≡ H.plays host.old }
    ensures count { Counts (H.faults host.old) (H.faults host.new) result }
{
    for _ in pod.steps.len()..pod.plan.orders.len() {
        launch_next(alloc, host, root, pod)?;
    }
    Ok(())
}

/// Arms every step of the pod that isn't armed yet.
fn arm_steps<H: Host>(
    alloc: Global,
    host: &mut H,
    root: &Text,
    pod: &mut HeldPod,
) -> Result<(), Miss>
    requires plan { IsPlanOf pod.old.name pod.old.plan }
    requires holds { HoldsPod (H.told host.old) pod.old }
    requires within { length pod.old.steps.items ≤ length pod.old.plan.orders }
    ensures moves { Moves root.now pod.old pod.new (H.told host.old) (H.told host.new) }
    ensures stays { ReadyIsSo root.now pod.old (H.told host.old) → ReadyIsSo root.now pod.new (H.told host.new) }
    ensures failed { pod.new.failed ≡ pod.old.failed }
    ensures armed { OnOk result (length pod.new.steps.items ≡ length pod.old.plan.orders) }
    ensures within { length pod.new.steps.items ≤ length pod.old.plan.orders }
    ensures quiet { count_actions (H.told host.new) ≡ count_actions (H.told host.old) }
    ensures killed { H.killed host.new ≡ H.killed host.old }
    ensures watches { H.watches host.new ≡ H.watches host.old }
    ensures plays { H.plays host.new ≡ H.plays host.old }
    ensures count { Counts (H.faults host.old) (H.faults host.new) result }
{
    make_ready(alloc, host, root, pod)?;
    launch_rest(alloc, host, root, pod)
}

/// Arms every step of the pod that isn't armed yet; a call that fails is kept with the pod.
pub fn arm<H: Host>(
    alloc: Global,
    host: &mut H,
    root: &Text,
    pod: &mut HeldPod,
) -> Result<(), AllocError>
    requires plan { IsPlanOf pod.old.name pod.old.plan }
    requires holds { HoldsPod (H.told host.old) pod.old }
    requires within { length pod.old.steps.items ≤ length pod.old.plan.orders }
    requires not_failed { pod.old.failed ≡ false }
    ensures moves { Moves root.now pod.old pod.new (H.told host.old) (H.told host.new) }
    ensures stays { ReadyIsSo root.now pod.old (H.told host.old) → ReadyIsSo root.now pod.new (H.told host.new) }
    ensures armed { OnOk result (pod.new.failed ≡ false → length pod.new.steps.items ≡ length pod.old.plan.orders) }
    ensures within { length pod.new.steps.items ≤ length pod.old.plan.orders }
    ensures quiet { count_actions (H.told host.new) ≡ count_actions (H.told host.old) }
    ensures killed { H.killed host.new ≡ H.killed host.old }
    ensures watches { H.watches host.new ≡ H.watches host.old }
    ensures plays { H.plays host.new ≡ H.plays host.old }
    ensures count { H.faults host.new ≡ counted pod.new.failed (H.faults host.old) }
{
    match arm_steps(alloc, host, root, pod) {
        Ok(()) => Ok(()),
        Err(Miss::Failed) => {
            pod.failed = true;
            Ok(())
        }
        Err(Miss::Memory) => Err(AllocError),
    }
}
