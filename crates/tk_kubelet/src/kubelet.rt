ghost use Rattle.std.specs.Prelude.{◌≡◌, ◌≤◌, [], IfOk, OnErr};
ghost use Rattle.tk_cache.specs.Fronts.{Shows};
ghost use Rattle.tk_cache.specs.Views.{seen};
ghost use Rattle.tk_held.specs.Pods.{KeepsAll};
ghost use Rattle.tk_held.specs.Settling.{KillsHeld, StayKilled};
ghost use Rattle.tk_kubelet.specs.Holding.{AreOwnSettled, IsMet, IsSameKubelet, holding_of};
ghost use Rattle.tk_kubelet.specs.Seat.{hosts_of, seat_of};
ghost use Rattle.tk_kubelet.specs.Turn.{TurnGives, TurnMissed};

use crate::turning::take_turn;
use std::alloc::{AllocError, Global};
use std::marker::Model;
use tk_edge::Host;
use tk_held::kill_pods;
use tk_journal::Claim;
use tk_pod_cache::PodCache;
use tk_steps::HeldPod;
use tk_store::Store;
use tk_types::Text;

/// A kubelet, in one of its lives, with what it holds of the pods that it claimed.
#[derive(Drop)]
pub struct Kubelet {
    number: u32,
    life: u32,
    root: Text,
    held: Vec<HeldPod>,
}

impl Model for Kubelet {
    ghost use Rattle.tk_kubelet.specs.Holding.{Holding};

    ghost Value = { Holding };

    ghost view = { λ k. record { number = k.number; life = k.life; root = k.root; held = k.held.items } };
}

/// What a turn came to. Wrote and Conflict are the store's answer to the one entry that was tried, and go before the
/// others. HostFault says that a call on the host failed, Acted that none did and a step was started, or found ended for
/// the first time, and Idle that none was.
#[derive(Clone, Copy, Debug, PartialEq, Eq)]
pub enum KubeletTurn {
    Wrote { version: u64 },
    Conflict { found: u64 },
    Acted,
    Idle,
    HostFault,
}

impl Kubelet {
    /// A kubelet of this number in this life, which holds no pod. Its pods' folders lie below the root. It takes no
    /// memory.
    pub fn new(alloc: Global, number: u32, life: u32, root: Text) -> Kubelet
        ensures { result ≡ holding_of number life root [] }
    {
        Kubelet {
            number,
            life,
            root,
            held: Vec::new(alloc),
        }
    }

    /// Kills all that runs of its pods. Afterwards each child that this kubelet armed in this life has an exit or was
    /// killed, for each journal under which its conditions hold. It takes no memory.
    pub fn kill_all<H: Host>(&mut self, host: &mut H)
        requires keeps { KeepsAll (H.told host.old) self.old.held }
        ensures same { self.new ≡ self.old }
        ensures told { H.told host.new ≡ H.told host.old }
        ensures watches { H.watches host.new ≡ H.watches host.old }
        ensures plays { H.plays host.new ≡ H.plays host.old }
        ensures settled { AreOwnSettled self.old (H.killed host.old) (H.killed host.new) (H.told host.new) }
        ensures still { StayKilled (H.killed host.old) (H.killed host.new) }
        ensures only { KillsHeld self.old.held (H.killed host.old) (H.killed host.new) }
        ensures later { H.faults host.old ≤ H.faults host.new }
    {
        kill_pods(host, self.held.as_slice());
    }

    /// One turn at a moment in milliseconds. It settles the pods that are marked or late, arms and watches every step of
    /// the others once, and then tries the first entry that is justified by its cache: the end of a pod, in order of
    /// creation, before the claim of one (Tekton, Tasks, Defining Steps; Specifying `onError` for a step). A pod on which
    /// a call on the host failed ends Failed without an exit; a failed kill changes no outcome. The only error is want of
    /// memory; the store is then as before, and all that is held stays so.
    pub fn turn<H: Host>(
        &mut self,
        alloc: Global,
        cache: &PodCache,
        store: &mut Store,
        host: &mut H,
        moment: u64,
    ) -> Result<KubeletTurn, AllocError>
        requires shows { Shows (seen cache.now) store.old.history }
        requires met { IsMet self.old store.old.history (H.killed host.old) (H.told host.old) }
        ensures same { IsSameKubelet self.old self.new }
        ensures met { IsMet self.new store.new.history (H.killed host.new) (H.told host.new) }
        ensures answer { IfOk result (TurnGives (seat_of self.old (seen cache.now) moment) self.old.held self.new.held (hosts_of H.told H.killed H.faults H.watches H.files H.plays host.old host.new) store.old store.new) }
        ensures memory { OnErr result (TurnMissed (seat_of self.old (seen cache.now) moment) self.old.held self.new.held (hosts_of H.told H.killed H.faults H.watches H.files H.plays host.old host.new) store.old store.new) }
    {
        let me = Claim {
            number: self.number,
            life: self.life,
        };
        take_turn(
            alloc,
            me,
            &self.root,
            cache.cache(),
            cache.marks(),
            store,
            host,
            moment,
            &mut self.held,
        )
    }
}
