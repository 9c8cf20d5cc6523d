ghost use Rattle.std.specs.Prelude.{◌≡◌, ◌≢◌, IfOk, OnErr};
ghost use Rattle.tk_cache.specs.Fronts.{Shows};
ghost use Rattle.tk_cache.specs.Views.{seen};
ghost use Rattle.tk_edge.specs.declared.gate.GateTurn.TheVariants.{Work};
ghost use Rattle.tk_kubelet.specs.Answer.{is_written as kubelet_wrote};
ghost use Rattle.tk_kubelet.specs.Holding.{IsMet, IsSameKubelet};
ghost use Rattle.tk_kubelet.specs.Seat.{hosts_of, seat_of};
ghost use Rattle.tk_kubelet.specs.Turn.{TurnMissed};
ghost use Rattle.tk_rounds.specs.Members.{of_kubelet};
ghost use Rattle.tk_rounds.specs.Turning.{AddsOfLife, IsTurn, KubeletWorks, place_of};

use crate::bench::Node;
use crate::moving::{lag_of, move_cache};
use std::alloc::{AllocError, Global};
use tk_edge::{Clock, Gate, GateTurn, Host};
use tk_kubelet::KubeletTurn;
use tk_store::Store;

/// Whether a kubelet's turn wrote an entry.
fn is_written(turn: KubeletTurn) -> bool
    ensures { result ≡ kubelet_wrote turn }
{
    matches!(turn, KubeletTurn::Wrote { .. })
}

impl<K: Clock, H: Host, G: Gate> Node<K, H, G> {
    /// A Work turn, with the one reading of its clock that it takes as the moment.
    fn work(&mut self, alloc: Global, store: &mut Store) -> Result<bool, AllocError>
        requires shows { Shows (seen self.old.cache) store.old.history }
        requires met { IsMet self.old.kubelet store.old.history (H.killed self.old.host) (H.told self.old.host) }
        ensures gate { self.new.gate ≡ self.old.gate }
        ensures kubelet { IsSameKubelet self.old.kubelet self.new.kubelet }
        ensures met { IsMet self.new.kubelet store.new.history (H.killed self.new.host) (H.told self.new.host) }
        ensures turn { IsTurn (of_kubelet self.old.kubelet.number) Work (place_of K.readings K.last self.old.clock self.old.cache store.old) (place_of K.readings K.last self.new.clock self.new.cache store.new) }
        ensures life { AddsOfLife self.old.kubelet.number self.old.kubelet.life store.old.history store.new.history }
        ensures worked { IfOk result (KubeletWorks (seat_of self.old.kubelet (seen self.old.cache) (K.last self.new.clock)) self.old.kubelet.held self.new.kubelet.held (hosts_of H.told H.killed H.faults H.watches H.files H.plays self.old.host self.new.host) store.old store.new) }
        ensures memory { OnErr result (TurnMissed (seat_of self.old.kubelet (seen self.old.cache) (K.last self.new.clock)) self.old.kubelet.held self.new.kubelet.held (hosts_of H.told H.killed H.faults H.watches H.files H.plays self.old.host self.new.host) store.old store.new) }
    {
        let moment = self.clock.now();
        let turn = self
            .kubelet
            .turn(alloc, &self.cache, store, &mut self.host, moment)?;
        Ok(is_written(turn))
    }

    /// The turn itself.
    fn act(&mut self, alloc: Global, given: GateTurn, store: &mut Store) -> Result<bool, AllocError>
        requires shows { Shows (seen self.old.cache) store.old.history }
        requires met { IsMet self.old.kubelet store.old.history (H.killed self.old.host) (H.told self.old.host) }
        ensures gate { self.new.gate ≡ self.old.gate }
        ensures kubelet { IsSameKubelet self.old.kubelet self.new.kubelet }
        ensures met { IsMet self.new.kubelet store.new.history (H.killed self.new.host) (H.told self.new.host) }
        ensures turn { IsTurn (of_kubelet self.old.kubelet.number) given (place_of K.readings K.last self.old.clock self.old.cache store.old) (place_of K.readings K.last self.new.clock self.new.cache store.new) }
        ensures life { AddsOfLife self.old.kubelet.number self.old.kubelet.life store.old.history store.new.history }
        ensures worked { given ≡ Work → IfOk result (KubeletWorks (seat_of self.old.kubelet (seen self.old.cache) (K.last self.new.clock)) self.old.kubelet.held self.new.kubelet.held (hosts_of H.told H.killed H.faults H.watches H.files H.plays self.old.host self.new.host) store.old store.new) }
        ensures memory { given ≡ Work → OnErr result (TurnMissed (seat_of self.old.kubelet (seen self.old.cache) (K.last self.new.clock)) self.old.kubelet.held self.new.kubelet.held (hosts_of H.told H.killed H.faults H.watches H.files H.plays self.old.host self.new.host) store.old store.new) }
        ensures rests { given ≢ Work → (self.new.host ≡ self.old.host) × (self.new.kubelet ≡ self.old.kubelet) }
    {
        match given {
            GateTurn::Work => self.work(alloc, store),
            _ => {
                store.legal();
                move_cache(&mut self.cache, store.journal(), given)?;
                Ok(false)
            }
        }
    }

    /// The rest of a turn, for what the gate answered: the cache moves, or the kubelet takes its turn over the host. It
    /// answers whether an entry was written. The only error is want of memory; the store is then as before, and all that
    /// the kubelet holds stays so.
    pub fn turn(
        &mut self,
        alloc: Global,
        given: GateTurn,
        store: &mut Store,
    ) -> Result<bool, AllocError>
        requires shows { Shows (seen self.old.cache) store.old.history }
        requires met { IsMet self.old.kubelet store.old.history (H.killed self.old.host) (H.told self.old.host) }
        ensures gate { self.new.gate ≡ self.old.gate }
        ensures kubelet { IsSameKubelet self.old.kubelet self.new.kubelet }
        ensures shows { Shows (seen self.new.cache) store.new.history }
        ensures met { IsMet self.new.kubelet store.new.history (H.killed self.new.host) (H.told self.new.host) }
        ensures turn { IsTurn (of_kubelet self.old.kubelet.number) given (place_of K.readings K.last self.old.clock self.old.cache store.old) (place_of K.readings K.last self.new.clock self.new.cache store.new) }
        ensures life { AddsOfLife self.old.kubelet.number self.old.kubelet.life store.old.history store.new.history }
        ensures worked { given ≡ Work → IfOk result (KubeletWorks (seat_of self.old.kubelet (seen self.old.cache) (K.last self.new.clock)) self.old.kubelet.held self.new.kubelet.held (hosts_of H.told H.killed H.faults H.watches H.files H.plays self.old.host self.new.host) store.old store.new) }
        ensures memory { given ≡ Work → OnErr result (TurnMissed (seat_of self.old.kubelet (seen self.old.cache) (K.last self.new.clock)) self.old.kubelet.held self.new.kubelet.held (hosts_of H.told H.killed H.faults H.watches H.files H.plays self.old.host self.new.host) store.old store.new) }
        ensures rests { given ≢ Work → (self.new.host ≡ self.old.host) × (self.new.kubelet ≡ self.old.kubelet) }
    {
        let wrote = self.act(alloc, given, store);
        self.lag = lag_of(self.cache.cache(), store.journal());
        wrote
    }
}
