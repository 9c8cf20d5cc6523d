//! A turn: what is done for the held pods, and then the first entry that is justified.
ghost use Rattle.std.specs.Prelude.{◌≡◌, IfOk, OnErr};
ghost use Rattle.tk_cache.specs.Fronts.{Shows};
ghost use Rattle.tk_cache.specs.Views.{seen};
ghost use Rattle.tk_held.specs.Conditions.{AreMet};
ghost use Rattle.tk_pod_cache.specs.Marks.{ArePodsMarked};
ghost use Rattle.tk_kubelet.specs.Answer.{answer_of as the_answer};
ghost use Rattle.tk_kubelet.specs.Seat.{hosts_of, seat_at};
ghost use Rattle.tk_kubelet.specs.Turn.{TurnGives, TurnMissed};

use crate::choose::{first_claim, first_end};
use crate::claim::claim_pod;
use crate::ending::end_pod;
use crate::kubelet::KubeletTurn;
use std::alloc::{AllocError, Global};
use tk_cache::Cache;
use tk_edge::Host;
use tk_held::{Ran, run_pods};
use tk_journal::Claim;
use tk_pod_cache::PodMarks;
use tk_steps::HeldPod;
use tk_store::Store;
use tk_types::Text;

/// The answer of a turn that tries no entry.
fn answer_of(ran: Ran) -> KubeletTurn
    ensures { result ≡ the_answer ran }
{
    if ran.failed {
        KubeletTurn::HostFault
    } else if ran.acted {
        KubeletTurn::Acted
    } else {
        KubeletTurn::Idle
    }
}

/// A turn of the kubelet that claims so.
pub(crate) fn take_turn<H: Host>(
    alloc: Global,
    me: Claim,
    root: &Text,
    cache: &Cache,
    marks: &PodMarks,
    store: &mut Store,
    host: &mut H,
    moment: u64,
    held: &mut Vec<HeldPod>,
) -> Result<KubeletTurn, AllocError>
    requires marked { ArePodsMarked (seen cache.now).view marks.now }
    requires shows { Shows (seen cache.now) store.old.history }
    requires met { AreMet me.number me.life root.now held.old.items store.old.history (H.killed host.old) (H.told host.old) }
    ensures met { AreMet me.number me.life root.now held.new.items store.new.history (H.killed host.new) (H.told host.new) }
    ensures answer { IfOk result (TurnGives (seat_at me root.now (seen cache.now) moment) held.old.items held.new.items (hosts_of H.told H.killed H.faults H.watches H.files H.plays host.old host.new) store.old store.new) }
    ensures memory { OnErr result (TurnMissed (seat_at me root.now (seen cache.now) moment) held.old.items held.new.items (hosts_of H.told H.killed H.faults H.watches H.files H.plays host.old host.new) store.old store.new) }
{
    store.legal();
    let ran = run_pods(alloc, cache, host, root, moment, held)?;
    if let Some(name) = first_end(me, cache, marks, moment, held.as_slice()) {
        return end_pod(alloc, me, root, cache, store, host, moment, held, name);
    }
    if let Some(name) = first_claim(me.number, cache, marks) {
        return claim_pod(alloc, me, cache, store, moment, held, name);
    }
    Ok(answer_of(ran))
}
