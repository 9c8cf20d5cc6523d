ghost use Rattle.std.specs.Prelude.{◌≡◌, ◌≤◌, []};
ghost use Rattle.tk_cache.specs.Fronts.{Shows};
ghost use Rattle.tk_cache.specs.Views.{seen};
ghost use Rattle.tk_edge.specs.Gates.{AddsAnswer};
ghost use Rattle.tk_held.specs.Pods.{KeepsAll};
ghost use Rattle.tk_held.specs.Settling.{KillsHeld, StayKilled};
ghost use Rattle.tk_kubelet.specs.Holding.{AreOwnSettled, holding_of};

use std::alloc::Global;
use tk_edge::{Clock, Gate, GateTurn, Host};
use tk_kubelet::Kubelet;
use tk_pod_cache::PodCache;
use tk_task_cache::TaskCache;
use tk_types::Text;

/// A run worker and a task worker over one cache. Both have its number.
#[derive(Drop)]
pub struct Controller<K, G> {
    pub clock: K,
    pub gate: G,
    pub cache: TaskCache,
    /// How many entries of the journal the cache lacked when the controller last held the store.
    pub lag: u64,
    pub number: u32,
}

/// A kubelet with its cache, over its host.
#[derive(Drop)]
pub struct Node<K, H, G> {
    pub clock: K,
    pub host: H,
    pub gate: G,
    pub cache: PodCache,
    /// How many entries of the journal the cache lacked when the node last held the store.
    pub lag: u64,
    pub kubelet: Kubelet,
}

/// All that a run works with: the controllers, the nodes, and the user's clock.
#[derive(Drop)]
pub struct Bench<K, H, G> {
    pub controllers: Vec<Controller<K, G>>,
    pub kubelets: Vec<Node<K, H, G>>,
    pub user: K,
}

impl<K: Clock, G: Gate> Controller<K, G> {
    /// A controller that has seen nothing and isn't begun. It takes no memory.
    pub fn new(alloc: Global, clock: K, gate: G) -> Self
        ensures clock { result.clock ≡ clock }
        ensures gate { result.gate ≡ gate }
        ensures unseen { Shows (seen result.cache) [] }
        ensures number { result.number ≡ 0 }
    {
        Controller {
            clock,
            gate,
            cache: TaskCache::empty(alloc),
            lag: 0,
            number: 0,
        }
    }

    /// It begins with a number.
    pub fn begin(&mut self, number: u32)
        ensures { self.new ≡ record self.old { number = number } }
    {
        self.number = number;
    }

    /// What its gate answers next. No store is lent meanwhile, and no other call asks the gate.
    pub fn next(&mut self) -> GateTurn
        ensures gave { AddsAnswer result (G.answers self.old.gate) (G.answers self.new.gate) }
        ensures same { self.new ≡ record self.old { gate = self.new.gate } }
    {
        self.gate.next(self.lag)
    }
}

impl<K: Clock, H: Host, G: Gate> Node<K, H, G> {
    /// A node that has seen nothing and isn't begun. It takes no memory.
    pub fn new(alloc: Global, clock: K, host: H, gate: G) -> Self
        ensures clock { result.clock ≡ clock }
        ensures host { result.host ≡ host }
        ensures gate { result.gate ≡ gate }
        ensures unseen { Shows (seen result.cache) [] }
        ensures kubelet { result.kubelet ≡ holding_of 0 0 [] [] }
    {
        Node {
            clock,
            host,
            gate,
            cache: PodCache::empty(alloc),
            lag: 0,
            kubelet: Kubelet::new(alloc, 0, 0, Text::new(alloc)),
        }
    }

    /// Its kubelet begins a life with a number; its pods' folders lie below the root. It takes no memory.
    pub fn begin(&mut self, alloc: Global, number: u32, life: u32, root: Text)
        ensures { self.new ≡ record self.old { kubelet = holding_of number life root [] } }
    {
        self.kubelet = Kubelet::new(alloc, number, life, root);
    }

    /// What its gate answers next. No store is lent meanwhile, and no other call asks the gate.
    pub fn next(&mut self) -> GateTurn
        ensures gave { AddsAnswer result (G.answers self.old.gate) (G.answers self.new.gate) }
        ensures same { self.new ≡ record self.old { gate = self.new.gate } }
    {
        self.gate.next(self.lag)
    }

    /// Kills all that runs of its kubelet's pods. Afterwards each child that this kubelet armed in this life has an exit or
    /// was killed, for each journal under which its conditions hold. It takes no memory.
    pub fn kill_all(&mut self)
        requires keeps { KeepsAll (H.told self.old.host) self.old.kubelet.held }
        ensures same { self.new ≡ record self.old { host = self.new.host } }
        ensures told { H.told self.new.host ≡ H.told self.old.host }
        ensures settled { AreOwnSettled self.old.kubelet (H.killed self.old.host) (H.killed self.new.host) (H.told self.new.host) }
        ensures still { StayKilled (H.killed self.old.host) (H.killed self.new.host) }
        ensures only { KillsHeld self.old.kubelet.held (H.killed self.old.host) (H.killed self.new.host) }
        ensures later { H.faults self.old.host ≤ H.faults self.new.host }
    {
        self.kubelet.kill_all(&mut self.host);
    }
}
