// A node as an actor of the turn lock.
ghost use Rattle.tk_journal.specs.Legal.{IsLegal};
ghost use Rattle.tk_threads.specs.Seats.{WorkerAsked, WorkerFollows, WorkerReady};
ghost use Rattle.tk_threads.specs.Timely.{IsTimely, Over};

use crate::going::goes_on;
use std::alloc::{AllocError, Global};
use tk_edge::{Clock, Gate, GateTurn, Host};
use tk_held::laws::legal_is_planned;
use tk_passes::Actor;
use tk_rounds::{Member, Node};
use tk_store::Store;

/// A node, the number under which it owns entries, and what its gate answered.
#[derive(Drop)]
pub(crate) struct Worker<K, H, G> {
    pub node: Node<K, H, G>,
    pub owner: u32,
    pub given: GateTurn,
}

impl<K: Clock, H: Host, G: Gate> Actor<Store> for Worker<K, H, G> {
    ghost number = { λ w. w.owner };

    ghost sound = { Over IsLegal };

    ghost such = { IsTimely };

    ghost ready = { WorkerReady H.told H.killed };

    ghost follows = { WorkerFollows G.answers K.readings K.last H.told H.faults };

    ghost asked = { WorkerReady H.told H.killed };

    ghost follows_asked = { WorkerAsked G.answers K.readings K.last H.told H.faults };

    fn number(&self) -> u32 {
        self.owner
    }

    fn ask(&mut self) {
        self.given = self.node.next();
    }

    fn take_turn(&mut self, alloc: Global, store: &mut Store) -> Result<bool, AllocError> {
        legal_is_planned();
        store.legal();
        let wrote = self.node.turn(alloc, self.given, store);
        store.legal();
        goes_on(self.given, self.node.lag, wrote)
    }

    fn sound_now(store: &Store) {
        store.legal();
    }

    fn laws() {
        Node::<K, H, G>::laws();
    }
}
