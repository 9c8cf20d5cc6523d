// A round of a bench in threads.
ghost use Rattle.std.specs.Prelude.{◌≡◌, ◌≤◌, ◌<◌, ◌-◌, ◌+◌, ◌^◌, ◌⊎◌, ◌++◌, [], true, All, length, IfErr, IfOk};
ghost use Rattle.std.specs.Vec.{vec_capacity};
ghost use Rattle.tk_journal.specs.Legal.{IsLegal};
ghost use Rattle.tk_rounds.specs.Bench.{AllFollow, AllReady, ControllerFollows, IsReadyController, IsReadyNode, NodeFollows, controller_number, node_number};
ghost use Rattle.tk_rounds.specs.Growth.{GrowsBy, OfOne};
ghost use Rattle.tk_rounds.specs.Members.{of_controller, of_kubelet};
ghost use Rattle.tk_turn.specs.Claims.{Distinct, OwnsAll, whole};
ghost use Rattle.tk_passes.specs.Standing.{Each, Grows, StandsBehind, numbers};
ghost use Rattle.tk_store.specs.Notes.{notes_of};
ghost use Rattle.tk_threads.specs.Seats.{LeaderFollows, LeaderReady, WorkerFollows, WorkerReady};
ghost use Rattle.tk_threads.specs.Timely.{IsTimely, Over};

use crate::leader::Leader;
use crate::seating::{leave_controllers, leave_nodes, seat_controllers, seat_nodes};
use crate::worker::Worker;
use std::alloc::{AllocError, Global};
use std::mem::replace;
use std::sync::Wait;
use std::thread::Threads;
use tk_edge::{Clock, Gate, Host};
use tk_journal::Admitted;
use tk_passes::Member;
use tk_rounds::{Bench, Controller, Node, RoundEnd, serial_round};
use tk_store::Store;
use tk_turn::{NewError, Pass, TurnLock};
use tk_types::List;

/// Room for the members of a bench in seats, and out of them again.
#[derive(Drop)]
pub(crate) struct Rooms<K, H, G> {
    pub leaders: Vec<Member<Leader<K, G>>>,
    pub workers: Vec<Member<Worker<K, H, G>>>,
    pub controllers: Vec<Controller<K, G>>,
    pub nodes: Vec<Node<K, H, G>>,
}

impl<K: Drop, H: Drop, G: Drop> Rooms<K, H, G> {
    /// Room for so many. The only error is want of memory.
    pub(crate) fn new(alloc: Global, controllers: usize, nodes: usize) -> Result<Self, AllocError>
        ensures empty { IfOk result (λ r. (r.leaders.items ≡ []) × (r.workers.items ≡ []) × (r.controllers.items ≡ []) × (r.nodes.items ≡ [])) }
        ensures leaders { IfOk result (λ r. (controllers ≤ vec_capacity r.leaders) × (controllers ≤ vec_capacity r.controllers)) }
        ensures workers { IfOk result (λ r. (nodes ≤ vec_capacity r.workers) × (nodes ≤ vec_capacity r.nodes)) }
    {
        Ok(Rooms {
            leaders: Vec::with_capacity(alloc, controllers)?,
            workers: Vec::with_capacity(alloc, nodes)?,
            controllers: Vec::with_capacity(alloc, controllers)?,
            nodes: Vec::with_capacity(alloc, nodes)?,
        })
    }
}

/// A round of the members in seats.
fn play<R: Threads + Wait + Sync, K: Clock + Send, H: Host + Send, G: Gate + Send>(
    rt: &R,
    alloc: Global,
    lock: &TurnLock<Store>,
    pass: &mut Pass,
    left: &mut Vec<Member<Leader<K, G>>>,
    right: &mut Vec<Member<Worker<K, H, G>>>,
) -> Result<(), AllocError>
    requires lock { pass.old.lock ≡ lock.now }
    requires first { pass.old.claim.first ≡ true }
    requires all { OwnsAll pass.old.claim }
    requires distinct { Distinct (numbers (λ l. l.owner) left.old.items ++ numbers (λ w. w.owner) right.old.items) }
    requires sound { Over IsLegal pass.old.claim.seen }
    requires left { All (λ m. LeaderReady pass.old.claim.seen m.actor) left.old.items }
    requires right { All (λ m. WorkerReady H.told H.killed pass.old.claim.seen m.actor) right.old.items }
    ensures lock { pass.new.lock ≡ pass.old.lock }
    ensures first { pass.new.claim.first ≡ true }
    ensures all { OwnsAll pass.new.claim }
    ensures left { Each (StandsBehind (λ l. l.owner) IsTimely LeaderReady (LeaderFollows G.answers K.readings K.last) pass.old.claim.seen pass.new.claim.seen) left.old.items left.new.items }
    ensures right { Each (StandsBehind (λ w. w.owner) IsTimely (WorkerReady H.told H.killed) (WorkerFollows G.answers K.readings K.last H.told H.faults) pass.old.claim.seen pass.new.claim.seen) right.old.items right.new.items }
    ensures grows { Grows IsTimely IsTimely (numbers (λ l. l.owner) left.old.items) (numbers (λ w. w.owner) right.old.items) pass.old.claim.seen pass.new.claim.seen }
{
    tk_passes::round(
        rt,
        alloc,
        lock,
        pass,
        left.as_mut_slice(),
        right.as_mut_slice(),
    )
}

/// A lock over a store, or the store where there is no memory.
fn locked(alloc: Global, store: Store) -> Result<(TurnLock<Store>, Pass), Store>
    ensures ok { IfOk result (λ r. (r.1.lock ≡ r.0) × (r.1.claim ≡ whole (notes_of store.history))) }
    ensures err { IfErr result (λ s. s ≡ store) }
{
    match TurnLock::new(alloc, store) {
        Ok(made) => Ok(made),
        Err(NewError::Memory(store)) => Err(store),
    }
}

/// Each member of a bench takes up to 64 turns in a thread of its own, and the store comes back.
fn in_threads<
    R: Threads + Wait + Sync,
    K: Clock + Drop + Send,
    H: Host + Drop + Send,
    G: Gate + Drop + Send,
>(
    rt: &R,
    bench: &mut Bench<K, H, G>,
    alloc: Global,
    store: Store,
    rooms: Rooms<K, H, G>,
) -> (Store, Result<(), AllocError>)
    requires few { (length bench.old.controllers.items < 2 ^ 31 - 1) × (length bench.old.kubelets.items < 2 ^ 31 - 1) }
    requires controllers { AllReady controller_number IsReadyController store.history bench.old.controllers.items }
    requires nodes { AllReady node_number (IsReadyNode H.told H.killed) store.history bench.old.kubelets.items }
    requires empty { (rooms.leaders.items ≡ []) × (rooms.workers.items ≡ []) × (rooms.controllers.items ≡ []) × (rooms.nodes.items ≡ []) }
    requires leaders { (length bench.old.controllers.items ≤ vec_capacity rooms.leaders) × (length bench.old.controllers.items ≤ vec_capacity rooms.controllers) }
    requires workers { (length bench.old.kubelets.items ≤ vec_capacity rooms.workers) × (length bench.old.kubelets.items ≤ vec_capacity rooms.nodes) }
    ensures legal { IsLegal result.0.history }
    ensures controllers { AllReady controller_number IsReadyController result.0.history bench.new.controllers.items }
    ensures nodes { AllReady node_number (IsReadyNode H.told H.killed) result.0.history bench.new.kubelets.items }
    ensures counts { (length bench.new.controllers.items ≡ length bench.old.controllers.items) × (length bench.new.kubelets.items ≡ length bench.old.kubelets.items) }
    ensures user { bench.new.user ≡ bench.old.user }
    ensures grows { GrowsBy (λ e. OfOne of_controller (length bench.old.controllers.items) e ⊎ OfOne of_kubelet (length bench.old.kubelets.items) e) store.history result.0.history }
    ensures controllers_follow { AllFollow (ControllerFollows G.answers K.readings K.last) bench.old.controllers.items bench.new.controllers.items store.history result.0.history }
    ensures nodes_follow { AllFollow (NodeFollows G.answers K.readings K.last H.told H.faults) bench.old.kubelets.items bench.new.kubelets.items store.history result.0.history }
{
    store.legal();
    let (lock, mut pass) = match locked(alloc, store) {
        Ok(made) => made,
        Err(store) => return (store, Err(AllocError)),
    };
    let Rooms {
        leaders,
        workers,
        controllers,
        nodes,
    } = rooms;
    let mut left = seat_controllers(replace(&mut bench.controllers, Vec::new(alloc)), leaders);
    let mut right = seat_nodes(replace(&mut bench.kubelets, Vec::new(alloc)), workers);
    let went = play(rt, alloc, &lock, &mut pass, &mut left, &mut right);
    let store = lock.close(pass);
    store.legal();
    bench.controllers = leave_controllers(left, controllers);
    bench.kubelets = leave_nodes(right, nodes);
    (store, went)
}

/// A store without entries, which stands in the place of one that is lent to a lock. The only error is want of memory.
fn nothing(alloc: Global) -> Result<Store, AllocError> {
    Store::new(
        alloc,
        Admitted {
            entries: List::new(alloc),
            weight: 0,
            scenario: None,
            outcomes: None,
            objects: 0,
        },
    )
}

/// A round of so many members that each has a number of its own below 2^32.
fn of_few<
    R: Threads + Wait + Sync,
    K: Clock + Drop + Send,
    H: Host + Drop + Send,
    G: Gate + Drop + Send,
>(rt: &R, bench: &mut Bench<K, H, G>, alloc: Global, store: &mut Store) -> Result<(), AllocError>
    requires few { (length bench.old.controllers.items < 2 ^ 31 - 1) × (length bench.old.kubelets.items < 2 ^ 31 - 1) }
    requires controllers { AllReady controller_number IsReadyController store.old.history bench.old.controllers.items }
    requires nodes { AllReady node_number (IsReadyNode H.told H.killed) store.old.history bench.old.kubelets.items }
    ensures legal { IsLegal store.new.history }
    ensures controllers { AllReady controller_number IsReadyController store.new.history bench.new.controllers.items }
    ensures nodes { AllReady node_number (IsReadyNode H.told H.killed) store.new.history bench.new.kubelets.items }
    ensures counts { (length bench.new.controllers.items ≡ length bench.old.controllers.items) × (length bench.new.kubelets.items ≡ length bench.old.kubelets.items) }
    ensures user { bench.new.user ≡ bench.old.user }
    ensures grows { GrowsBy (λ e. OfOne of_controller (length bench.old.controllers.items) e ⊎ OfOne of_kubelet (length bench.old.kubelets.items) e) store.old.history store.new.history }
    ensures controllers_follow { AllFollow (ControllerFollows G.answers K.readings K.last) bench.old.controllers.items bench.new.controllers.items store.old.history store.new.history }
    ensures nodes_follow { AllFollow (NodeFollows G.answers K.readings K.last H.told H.faults) bench.old.kubelets.items bench.new.kubelets.items store.old.history store.new.history }
{
    store.legal();
    let rooms = Rooms::new(alloc, bench.controllers.len(), bench.kubelets.len())?;
    let nothing = nothing(alloc)?;
    let (back, went) = in_threads(rt, bench, alloc, replace(store, nothing), rooms);
    *store = back;
    went
}

/// The most members of a kind of which each has a number below 2^32.
const FEW: usize = 2_147_483_646;

/// A round in threads: each controller and each node takes up to 64 turns in a thread of its own, one at a time behind a turn lock,
/// and is asked for each before it waits for the store. Afterwards all are ready again, whatever it came to. It may wait, for ever
/// where a turn doesn't end. The only error is want of memory; the journal then stands with what was written. A bench of more members
/// of a kind than have numbers has a round one after the other.
pub fn round<
    R: Threads + Wait + Sync,
    K: Clock + Drop + Send,
    H: Host + Drop + Send,
    G: Gate + Drop + Send,
>(
    rt: &R,
    bench: &mut Bench<K, H, G>,
    alloc: Global,
    store: &mut Store,
) -> Result<RoundEnd, AllocError>
    requires sizes { (length bench.old.controllers.items < 2 ^ 32) × (length bench.old.kubelets.items < 2 ^ 32) }
    requires controllers { AllReady controller_number IsReadyController store.old.history bench.old.controllers.items }
    requires nodes { AllReady node_number (IsReadyNode H.told H.killed) store.old.history bench.old.kubelets.items }
    ensures legal { IsLegal store.new.history }
    ensures controllers { AllReady controller_number IsReadyController store.new.history bench.new.controllers.items }
    ensures nodes { AllReady node_number (IsReadyNode H.told H.killed) store.new.history bench.new.kubelets.items }
    ensures counts { (length bench.new.controllers.items ≡ length bench.old.controllers.items) × (length bench.new.kubelets.items ≡ length bench.old.kubelets.items) }
    ensures user { bench.new.user ≡ bench.old.user }
    ensures wrote { IfOk result (λ end. length store.new.history ≡ length store.old.history + end.wrote) }
    ensures grows { GrowsBy (λ e. OfOne of_controller (length bench.old.controllers.items) e ⊎ OfOne of_kubelet (length bench.old.kubelets.items) e) store.old.history store.new.history }
    ensures controllers_follow { AllFollow (ControllerFollows G.answers K.readings K.last) bench.old.controllers.items bench.new.controllers.items store.old.history store.new.history }
    ensures nodes_follow { AllFollow (NodeFollows G.answers K.readings K.last H.told H.faults) bench.old.kubelets.items bench.new.kubelets.items store.old.history store.new.history }
{
    if FEW < bench.controllers.len() || FEW < bench.kubelets.len() {
        return serial_round(bench, alloc, store);
    }
    let before = store.journal().len();
    of_few(rt, bench, alloc, store)?;
    Ok(grown(store, before))
}

/// By how many entries a journal grew that had so many.
fn grown(store: &Store, before: u64) -> RoundEnd
    requires { before ≤ length store.now.history }
    ensures { length store.now.history ≡ before + result.wrote }
{
    RoundEnd {
        wrote: store.journal().len() - before,
    }
}
