//! Files and folders of a pod, before its steps are armed.
ghost use Rattle.std.specs.Prelude.{◌≡◌, [], ◌∷◌, true, OnOk};
ghost use Rattle.tk_edge.specs.declared.event.Event.TheVariants.{Cleared, Put};
ghost use Rattle.tk_edge.specs.Causes.{Counts};
ghost use Rattle.tk_steps.specs.Held.{HoldsPod};
ghost use Rattle.tk_steps.specs.May.{IsOwnFolder, IsOwnPut};
ghost use Rattle.tk_steps.specs.Moves.{Moves, count_actions};

use crate::held::HeldPod;
use tk_edge::{Host, Miss};
use tk_types::Text;

/// Puts a file of the pod's folder, before its steps are armed.
#[tactic(auto, using(crate::proofs::Moved::put_moves, crate::proofs::Moved::put_quiet))]
pub(crate) fn put_own<H: Host>(
    host: &mut H,
    root: &Text,
    pod: &HeldPod,
    path: &Text,
    bytes: &[u8],
) -> Result<(), Miss>
    requires own { IsOwnPut root.now pod.now.name pod.now.plan path.now bytes.now }
    requires unarmed { pod.now.steps.items ≡ [] }
    requires holds { HoldsPod (H.told host.old) pod.now }
    ensures put { OnOk result (H.told host.new ≡ Put path.now bytes.now true ∷ H.told host.old) }
    ensures moves { Moves root.now pod.now pod.now (H.told host.old) (H.told host.new) }
    ensures quiet { count_actions (H.told host.new) ≡ count_actions (H.told host.old) }
    ensures killed { H.killed host.new ≡ H.killed host.old }
    ensures watches { H.watches host.new ≡ H.watches host.old }
    ensures plays { H.plays host.new ≡ H.plays host.old }
    ensures count { Counts (H.faults host.old) (H.faults host.new) result }
{
    host.put(path.as_str(), bytes)
}

/// Makes the pod's folder anew.
#[tactic(auto, using(crate::proofs::Moved::clear_moves, crate::proofs::Moved::clear_quiet))]
pub(crate) fn clear_own<H: Host>(
    host: &mut H,
    root: &Text,
    pod: &HeldPod,
    folder: &Text,
) -> Result<(), Miss>
    requires own { IsOwnFolder root.now pod.now.name pod.now.plan folder.now }
    requires unarmed { pod.now.steps.items ≡ [] }
    requires holds { HoldsPod (H.told host.old) pod.now }
    ensures cleared { OnOk result (H.told host.new ≡ Cleared folder.now true ∷ H.told host.old) }
    ensures moves { Moves root.now pod.now pod.now (H.told host.old) (H.told host.new) }
    ensures quiet { count_actions (H.told host.new) ≡ count_actions (H.told host.old) }
    ensures killed { H.killed host.new ≡ H.killed host.old }
    ensures watches { H.watches host.new ≡ H.watches host.old }
    ensures plays { H.plays host.new ≡ H.plays host.old }
    ensures count { Counts (H.faults host.old) (H.faults host.new) result }
{
    host.clear(folder.as_str())
}
