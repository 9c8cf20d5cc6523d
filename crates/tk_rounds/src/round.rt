ghost use Rattle.std.specs.Prelude.{◌≡◌, ◌<◌, ◌≤◌, ◌+◌, ◌^◌, ◌⊎◌, length, IfOk};
ghost use Rattle.tk_journal.specs.Legal.{IsLegal};
ghost use Rattle.tk_rounds.specs.Bench.{AllFollow, AllReady, ControllerFollows, IsReadyController, IsReadyNode, NodeFollows, controller_number, node_number};
ghost use Rattle.tk_rounds.specs.Growth.{AreTwoKinds, GrowsBy, OfOne};
ghost use Rattle.tk_rounds.specs.Members.{of_controller, of_kubelet};

use crate::bench::Bench;
use crate::member::{Member, part};
use std::alloc::{AllocError, Global};
use tk_edge::{Clock, Gate, Host};
use tk_store::Store;

/// What a round came to.
#[derive(Clone, Copy, Debug, PartialEq, Eq)]
pub struct RoundEnd {
    /// By how many entries the journal grew.
    pub wrote: u64,
}

/// By how many entries a journal grew that had so many.
fn grown(store: &Store, before: u64) -> RoundEnd
    requires { before ≤ length store.now.history }
    ensures { length store.now.history ≡ before + result.wrote }
{
    RoundEnd {
        wrote: store.journal().len() - before,
    }
}

/// The members of one kind take their turns, while those of another stay as they are.
fn part_beside<A: Member, B: Member>(
    members: &mut [A],
    beside: &[B],
    alloc: Global,
    store: &mut Store,
) -> Result<(), AllocError>
    requires sizes { length members.old < 2 ^ 32 }
    requires kinds { AreTwoKinds A.mine B.mine }
    requires members { AllReady A.number A.ready store.old.history members.old }
    requires beside { AllReady B.number B.ready store.old.history beside.now }
    ensures legal { IsLegal store.new.history }
    ensures members { AllReady A.number A.ready store.new.history members.new }
    ensures beside { AllReady B.number B.ready store.new.history beside.now }
    ensures count { length members.new ≡ length members.old }
    ensures grows { GrowsBy (OfOne A.mine (length members.old)) store.old.history store.new.history }
    ensures members_follow { AllFollow A.follows members.old members.new store.old.history store.new.history }
    ensures beside_follow { AllFollow B.follows beside.now beside.now store.old.history store.new.history }
{
    B::laws();
    part(members, alloc, store)
}

/// The members of one kind, and then those of another.
fn both_parts<A: Member, B: Member>(
    ones: &mut [A],
    others: &mut [B],
    alloc: Global,
    store: &mut Store,
) -> Result<(), AllocError>
    requires sizes { (length ones.old < 2 ^ 32) × (length others.old < 2 ^ 32) }
    requires kinds { AreTwoKinds A.mine B.mine }
    requires ones { AllReady A.number A.ready store.old.history ones.old }
    requires others { AllReady B.number B.ready store.old.history others.old }
    ensures legal { IsLegal store.new.history }
    ensures ones { AllReady A.number A.ready store.new.history ones.new }
    ensures others { AllReady B.number B.ready store.new.history others.new }
    ensures counts { (length ones.new ≡ length ones.old) × (length others.new ≡ length others.old) }
    ensures grows { GrowsBy (λ e. OfOne A.mine (length ones.old) e ⊎ OfOne B.mine (length others.old) e) store.old.history store.new.history }
    ensures ones_follow { AllFollow A.follows ones.old ones.new store.old.history store.new.history }
    ensures others_follow { AllFollow B.follows others.old others.new store.old.history store.new.history }
{
    part_beside(ones, others, alloc, store)?;
    part_beside(others, ones, alloc, store)
}

/// A round, one member after the other: each controller and then each node in order takes up to 64 turns. Afterwards all are
/// ready again, whatever it came to. The only error is want of memory; the journal then stands with what was written.
pub fn serial_round<K: Clock, H: Host, G: Gate>(
    bench: &mut Bench<K, H, G>,
    alloc: Global,
    store: &mut Store,
) -> Result<RoundEnd, AllocError>
    requires sizes { (length bench.old.controllers.items < 2 ^ 32) × (length bench.old.kubelets.items < 2 ^ 32) }
    requires controllers { AllReady controller_number IsReadyController store.old.history bench.old.controllers.items }
    requires nodes { AllReady node_number (IsReadyNode H.told H.killed) store.old.history bench.old.kubelets.items }
    ensures legal { IsLegal store.new.history }
    ensures controllers { AllReady controller_number IsReadyController store.new.history bench.new.controllers.items }
    ensures nodes { AllReady node_number (IsReadyNode H.told H.killed) store.new.history bench.new.kubelets.items }
    ensures counts { (length bench.new.controllers.items ≡ length bench.old.controllers.items) × (length bench.new.kubelets.items ≡ length bench.old.kubelets.items) }
    ensures user { bench.new.user ≡ bench.old.user }
    ensures wrote { IfOk result (λ end. length store.new.history ≡ length store.old.history + end.wrote) }
    ensures grows { GrowsBy (λ e. OfOne of_controller (length bench.old.controllers.items) e ⊎ OfOne of_kubelet (length bench.old.kubelets.items) e) store.old.history store.new.history }
    ensures controllers_follow { AllFollow (ControllerFollows G.answers K.readings K.last) bench.old.controllers.items bench.new.controllers.items store.old.history store.new.history }
    ensures nodes_follow { AllFollow (NodeFollows G.answers K.readings K.last H.told H.faults) bench.old.kubelets.items bench.new.kubelets.items store.old.history store.new.history }
{
    let before = store.journal().len();
    both_parts(
        bench.controllers.as_mut_slice(),
        bench.kubelets.as_mut_slice(),
        alloc,
        store,
    )?;
    Ok(grown(store, before))
}

/// A round of the nodes alone, as `serial_round` lets them take their turns, while the controllers stay as they are: what
/// their hosts found is written, and nothing else is decided. The only error is want of memory; the journal then stands
/// with what was written.
pub fn node_round<K: Clock, H: Host, G: Gate>(
    bench: &mut Bench<K, H, G>,
    alloc: Global,
    store: &mut Store,
) -> Result<RoundEnd, AllocError>
    requires sizes { (length bench.old.controllers.items < 2 ^ 32) × (length bench.old.kubelets.items < 2 ^ 32) }
    requires controllers { AllReady controller_number IsReadyController store.old.history bench.old.controllers.items }
    requires nodes { AllReady node_number (IsReadyNode H.told H.killed) store.old.history bench.old.kubelets.items }
    ensures legal { IsLegal store.new.history }
    ensures controllers { AllReady controller_number IsReadyController store.new.history bench.new.controllers.items }
    ensures nodes { AllReady node_number (IsReadyNode H.told H.killed) store.new.history bench.new.kubelets.items }
    ensures counts { (length bench.new.controllers.items ≡ length bench.old.controllers.items) × (length bench.new.kubelets.items ≡ length bench.old.kubelets.items) }
    ensures user { bench.new.user ≡ bench.old.user }
    ensures still { bench.new.controllers ≡ bench.old.controllers }
    ensures wrote { IfOk result (λ end. length store.new.history ≡ length store.old.history + end.wrote) }
    ensures grows { GrowsBy (λ e. OfOne of_controller (length bench.old.controllers.items) e ⊎ OfOne of_kubelet (length bench.old.kubelets.items) e) store.old.history store.new.history }
    ensures controllers_follow { AllFollow (ControllerFollows G.answers K.readings K.last) bench.old.controllers.items bench.new.controllers.items store.old.history store.new.history }
    ensures nodes_follow { AllFollow (NodeFollows G.answers K.readings K.last H.told H.faults) bench.old.kubelets.items bench.new.kubelets.items store.old.history store.new.history }
{
    let before = store.journal().len();
    part_beside(
        bench.kubelets.as_mut_slice(),
        bench.controllers.as_slice(),
        alloc,
        store,
    )?;
    Ok(grown(store, before))
}
