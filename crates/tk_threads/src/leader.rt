// A controller as an actor of the turn lock.
ghost use Rattle.tk_journal.specs.Legal.{IsLegal};
ghost use Rattle.tk_threads.specs.Seats.{LeaderAsked, LeaderFollows, LeaderReady};
ghost use Rattle.tk_threads.specs.Timely.{IsTimely, Over};

use crate::going::goes_on;
use std::alloc::{AllocError, Global};
use tk_edge::{Clock, Gate, GateTurn};
use tk_passes::Actor;
use tk_rounds::{Controller, Member};
use tk_store::Store;

/// A controller, the number under which it owns entries, and what its gate answered.
#[derive(Drop)]
pub(crate) struct Leader<K, G> {
    pub controller: Controller<K, G>,
    pub owner: u32,
    pub given: GateTurn,
}

impl<K: Clock, G: Gate> Actor<Store> for Leader<K, G> {
    ghost number = { λ l. l.owner };

    ghost sound = { Over IsLegal };

    ghost such = { IsTimely };

    ghost ready = { LeaderReady };

    ghost follows = { LeaderFollows G.answers K.readings K.last };

    ghost asked = { LeaderReady };

    ghost follows_asked = { LeaderAsked G.answers K.readings K.last };

    fn number(&self) -> u32 {
        self.owner
    }

    fn ask(&mut self) {
        self.given = self.controller.next();
    }

    fn take_turn(&mut self, alloc: Global, store: &mut Store) -> Result<bool, AllocError> {
        let wrote = self.controller.turn(alloc, self.given, store);
        goes_on(self.given, self.controller.lag, wrote)
    }

    fn sound_now(store: &Store) {
        store.legal();
    }

    fn laws() {
        Controller::<K, G>::laws();
    }
}
