//! The scripts of a pod's steps.
ghost use Rattle.std.specs.Prelude.{◌≡◌, ◌⊎◌, ◌<◌, ◌≤◌, ℕ, List, [], ◌∷◌, length, slice_get, Some, true, OnOk};
ghost use Rattle.tk_edge.specs.declared.event.Event.TheVariants.{Put};
ghost use Rattle.tk_edge.specs.Causes.{Counts};
ghost use Rattle.tk_steps.specs.Held.{HoldsPod};
ghost use Rattle.tk_steps.specs.Moves.{Moves, count_actions};
ghost use Rattle.tk_steps.specs.Paths.{script_path as path_of_script};
ghost use Rattle.tk_steps.specs.Ready.{AreScriptsPut};
ghost use Rattle.tk_steps.specs.Scripts.{PutsScript, KeepsPuts};

use crate::files::put_own;
use crate::held::HeldPod;
use crate::paths::script_path;
use std::alloc::Global;
use tk_edge::{Host, Miss};
use tk_types::Text;

/// Puts the script of one step, where it has one.
#[tactic(auto, using(crate::proofs::Moved::script_own, crate::proofs::Moved::moves_none))]
fn put_script<H: Host>(
    alloc: Global,
    host: &mut H,
    root: &Text,
    pod: &HeldPod,
    place: usize,
) -> Result<(), Miss>
    requires within { place < length pod.now.plan.scripts }
    requires few { length pod.now.plan.scripts ≤ 32 }
    requires unarmed { pod.now.steps.items ≡ [] }
    requires holds { HoldsPod (H.told host.old) pod.now }
    ensures script { OnOk result (PutsScript root.now pod.now.name pod.now.plan place (H.told host.old) (H.told host.new)) }
    ensures moves { Moves root.now pod.now pod.now (H.told host.old) (H.told host.new) }
    ensures quiet { count_actions (H.told host.new) ≡ count_actions (H.told host.old) }
    ensures killed { H.killed host.new ≡ H.killed host.old }
    ensures watches { H.watches host.new ≡ H.watches host.old }
    ensures plays { H.plays host.new ≡ H.plays host.old }
    ensures count { Counts (H.faults host.old) (H.faults host.new) result }
{
    let script = pod.plan.scripts.as_slice()[place].as_str();
    if script.is_empty() {
        return Ok(());
    }
    let path = script_path(alloc, root, &pod.name, place as u32)?;
    put_own(host, root, pod, &path, script.as_bytes())
}

/// Puts the script of each step that has one. What was put before stays put.
pub(crate) fn put_scripts<H: Host>(
    alloc: Global,
    host: &mut H,
    root: &Text,
    pod: &HeldPod,
) -> Result<(), Miss>
    requires few { length pod.now.plan.scripts ≤ 32 }
    requires unarmed { pod.now.steps.items ≡ [] }
    requires holds { HoldsPod (H.told host.old) pod.now }
    ensures scripts { OnOk result (AreScriptsPut root.now pod.now.name pod.now.plan (H.told host.new)) }
    ensures puts { OnOk result (KeepsPuts (H.told host.old) (H.told host.new)) }
    ensures moves { Moves root.now pod.now pod.now (H.told host.old) (H.told host.new) }
    ensures quiet { count_actions (H.told host.new) ≡ count_actions (H.told host.old) }
    ensures killed { H.killed host.new ≡ H.killed host.old }
    ensures watches { H.watches host.new ≡ H.watches host.old }
    ensures plays { H.plays host.new ≡ H.plays host.old }
    ensures count { Counts (H.faults host.old) (H.faults host.new) result }
{
    for place in 0..pod.plan.scripts.len() {
        put_script(alloc, host, root, pod, place)?;
    }
    Ok(())
}
