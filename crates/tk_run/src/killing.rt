ghost use Rattle.std.specs.Prelude.{◌≡◌, ◌<◌, ◌^◌, ℕ, List, length};
ghost use Rattle.tk_journal.specs.declared.entry.Entry.{Entry as AnEntry};
ghost use Rattle.tk_journal.specs.Legal.{IsLegal};
ghost use Rattle.tk_rounds.specs.Bench.{AllFollow, AllReady, IsReadyNode, NodeFollows, node_number};
ghost use Rattle.tk_rounds.specs.declared.bench.Bench.{Bench as ABench};
ghost use Rattle.tk_run.specs.Going.{GoesOn, IsReady};
ghost use Rattle.tk_run.specs.Run.{AreAllOfLife, AreNodesSettled, AreSettledBelow};

use tk_edge::{Clock, Gate, Host};
use tk_rounds::{Bench, Node};
use tk_store::Store;

/// All that the kubelets of these nodes still run is killed; else nothing changes.
fn kill_nodes<K: Clock, H: Host, G: Gate>(nodes: &mut [Node<K, H, G>], store: &Store)
    requires few { length nodes.old < 2 ^ 32 }
    requires ready { AllReady node_number (IsReadyNode H.told H.killed) store.now.history nodes.old }
    ensures count { length nodes.new ≡ length nodes.old }
    ensures settled { IsLegal store.now.history → AreAllOfLife store.now.history nodes.old → AreSettledBelow H.told H.killed (length nodes.old) nodes.new }
    ensures ready { AllReady node_number (IsReadyNode H.told H.killed) store.now.history nodes.new }
    ensures follow { AllFollow (NodeFollows G.answers K.readings K.last H.told H.faults) nodes.old nodes.new store.now.history store.now.history }
{
    for i in 0..nodes.len() as u32 {
        nodes[i as usize].kill_all();
    }
}

/// All that the kubelets of a bench still run is killed; else nothing changes.
pub(crate) fn kill_all<K: Clock, H: Host, G: Gate>(bench: &mut Bench<K, H, G>, store: &Store)
    requires ready { IsReady H.told H.killed store.now.history bench.old }
    ensures settled { IsLegal store.now.history → AreAllOfLife store.now.history bench.old.kubelets.items → AreNodesSettled H.told H.killed bench.new }
    ensures ready { IsReady H.told H.killed store.now.history bench.new }
    ensures goes { (start : ABench _ _ _) (first : List AnEntry) → GoesOn G.answers K.readings K.last H.told H.faults start bench.old first store.now.history → GoesOn G.answers K.readings K.last H.told H.faults start bench.new first store.now.history }
{
    kill_nodes(bench.kubelets.as_mut_slice(), store);
}
