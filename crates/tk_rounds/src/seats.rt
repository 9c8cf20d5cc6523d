//! Controllers and nodes are members.
ghost use Rattle.std.specs.Prelude.{◌≡◌, true};
ghost use Rattle.tk_edge.specs.declared.gate.GateTurn.TheVariants.{Pause};
ghost use Rattle.tk_rounds.specs.Bench.{ControllerFollows, IsReadyController, IsReadyNode, NodeFollows, controller_number, node_number};
ghost use Rattle.tk_rounds.specs.Members.{of_controller, of_kubelet};

use crate::bench::{Controller, Node};
use crate::member::Member;
use crate::moving::lag_of;
use std::alloc::{AllocError, Global};
use tk_edge::{Clock, Gate, GateTurn, Host};
use tk_held::laws::legal_is_planned;
use tk_store::Store;

/// Whether a member that took such a turn may have more to do: it wrote an entry, or its cache moved.
fn goes_on(given: GateTurn, wrote: bool) -> bool {
    match given {
        GateTurn::Deliver { .. } | GateTurn::Relist { .. } => true,
        GateTurn::Work => wrote,
        GateTurn::Pause => false,
    }
}

impl<K: Clock, G: Gate> Member for Controller<K, G> {
    ghost mine = { of_controller };

    ghost number = { controller_number };

    ghost ready = { IsReadyController };

    ghost follows = { ControllerFollows G.answers K.readings K.last };

    fn take_turn(&mut self, alloc: Global, store: &mut Store) -> Result<bool, AllocError> {
        self.lag = lag_of(self.cache.cache(), store.journal());
        let given = self.next();
        let wrote = self.turn(alloc, given, store);
        store.legal();
        Ok(goes_on(given, wrote?))
    }

    fn laws() {}
}

impl<K: Clock, H: Host, G: Gate> Member for Node<K, H, G> {
    ghost mine = { of_kubelet };

    ghost number = { node_number };

    ghost ready = { IsReadyNode H.told H.killed };

    ghost follows = { NodeFollows G.answers K.readings K.last H.told H.faults };

    fn take_turn(&mut self, alloc: Global, store: &mut Store) -> Result<bool, AllocError> {
        legal_is_planned();
        store.legal();
        self.lag = lag_of(self.cache.cache(), store.journal());
        let given = self.next();
        let wrote = self.turn(alloc, given, store);
        store.legal();
        Ok(goes_on(given, wrote?))
    }

    fn laws() {}
}
