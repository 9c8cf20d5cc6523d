//! Killing all that runs.
ghost use Rattle.std.specs.Prelude.{◌≡◌, ◌≤◌};
ghost use Rattle.tk_held.specs.Pods.{KeepsAll};
ghost use Rattle.tk_held.specs.Settling.{AreAllKilled, KillsHeld, StayKilled};

use tk_edge::Host;
use tk_steps::{HeldPod, kill};

/// Kills every child of the held pods that has no exit.
pub fn kill_pods<H: Host>(host: &mut H, held: &[HeldPod])
    requires keeps { KeepsAll (H.told host.old) held.now }
    ensures told { H.told host.new ≡ H.told host.old }
    ensures watches { H.watches host.new ≡ H.watches host.old }
    ensures plays { H.plays host.new ≡ H.plays host.old }
    ensures killed { AreAllKilled (H.killed host.new) held.now }
    ensures still { StayKilled (H.killed host.old) (H.killed host.new) }
    ensures only { KillsHeld held.now (H.killed host.old) (H.killed host.new) }
    ensures later { H.faults host.old ≤ H.faults host.new }
{
    for place in 0..held.len() {
        let _failed = kill(host, &held[place]);
    }
}
