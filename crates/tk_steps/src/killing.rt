//! Killing a pod's steps.
ghost use Rattle.std.specs.Prelude.{◌≡◌, ◌⊎◌, ℕ, true, None};
ghost use Rattle.tk_edge.specs.Memory.{is_named};
ghost use Rattle.tk_steps.specs.Held.{HoldsPod};
ghost use Rattle.tk_steps.specs.Kills.{AreKilled, AreNamed, CountsKills, IsLiving};

use crate::held::{HeldPod, HeldStep};
use tk_edge::Host;

/// Kills the step's child, where it has no exit.
fn kill_step<H: Host>(host: &mut H, step: &HeldStep) -> bool
    requires { is_named step.now.child (H.told host.old) ≡ true }
    ensures told { H.told host.new ≡ H.told host.old }
    ensures watches { H.watches host.new ≡ H.watches host.old }
    ensures plays { H.plays host.new ≡ H.plays host.old }
    ensures killed { step.now.exit ≡ None → H.killed host.new step.now.child ≡ true }
    ensures still { (child : ℕ) → H.killed host.old child ≡ true → H.killed host.new child ≡ true }
    ensures only { (child : ℕ) → H.killed host.new child ≡ true → (H.killed host.old child ≡ true) ⊎ ((step.now.exit ≡ None) × (step.now.child ≡ child)) }
    ensures count { CountsKills result (H.faults host.old) (H.faults host.new) }
{
    step.exit.is_none() && host.kill(step.child).is_err()
}

/// Kills the children of the steps that have no exit. Answers whether a call failed.
fn kill_steps<H: Host>(host: &mut H, steps: &[HeldStep]) -> bool
    requires { AreNamed (H.told host.old) steps.now }
    ensures told { H.told host.new ≡ H.told host.old }
    ensures watches { H.watches host.new ≡ H.watches host.old }
    ensures plays { H.plays host.new ≡ H.plays host.old }
    ensures killed { AreKilled (H.killed host.new) steps.now }
    ensures still { (child : ℕ) → H.killed host.old child ≡ true → H.killed host.new child ≡ true }
    ensures only { (child : ℕ) → H.killed host.new child ≡ true → (H.killed host.old child ≡ true) ⊎ IsLiving steps.now child }
    ensures count { CountsKills result (H.faults host.old) (H.faults host.new) }
{
    let mut failed = false;
    for place in 0..steps.len() {
        failed |= kill_step(host, &steps[place]);
    }
    failed
}

/// Kills the children of a pod's armed steps that have no exit. Answers whether a call failed.
#[tactic(auto, using(crate::proofs::Named::held_named))]
pub fn kill<H: Host>(host: &mut H, pod: &HeldPod) -> bool
    requires { HoldsPod (H.told host.old) pod.now }
    ensures told { H.told host.new ≡ H.told host.old }
    ensures watches { H.watches host.new ≡ H.watches host.old }
    ensures plays { H.plays host.new ≡ H.plays host.old }
    ensures killed { AreKilled (H.killed host.new) pod.now.steps.items }
    ensures still { (child : ℕ) → H.killed host.old child ≡ true → H.killed host.new child ≡ true }
    ensures only { (child : ℕ) → H.killed host.new child ≡ true → (H.killed host.old child ≡ true) ⊎ IsLiving pod.now.steps.items child }
    ensures count { CountsKills result (H.faults host.old) (H.faults host.new) }
{
    kill_steps(host, pod.steps.as_slice())
}
