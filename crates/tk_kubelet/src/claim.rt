//! The claim of a pod.
ghost use Rattle.std.specs.Prelude.{◌≡◌, Some, IfOk, OnErr};
ghost use Rattle.tk_cache.specs.Fronts.{Shows};
ghost use Rattle.tk_cache.specs.Views.{seen};
ghost use Rattle.tk_journal.specs.declared.act.Act.TheVariants.{ClaimPod};
ghost use Rattle.tk_kubelet.specs.Answer.{Answered};
ghost use Rattle.tk_kubelet.specs.Choice.{first_claim as the_first_claim};
ghost use Rattle.tk_journal.specs.Lists.{IsThere};
ghost use Rattle.tk_kubelet.specs.Entries.{HeldClaim, IsClaimed};
ghost use Rattle.tk_kubelet.specs.Seat.{entry_by};

use crate::kubelet::KubeletTurn;
use crate::trying::{is_written, try_entry};
use std::alloc::{AllocError, Global};
use tk_cache::Cache;
use tk_journal::{Act, Claim};
use tk_steps::HeldPod;
use tk_store::Store;
use tk_types::{Text, TryCopy};

/// The pod of this name as it is held when it is claimed: nothing was done for it.
fn fresh_pod(alloc: Global, cache: &Cache, name: &str) -> Result<HeldPod, AllocError>
    requires { IsThere ((seen cache.now).view.pod name.now) }
    ensures { IfOk result (IsClaimed (seen cache.now).view name.now) }
{
    let Some(state) = cache.pod(name) else {
        unreachable!()
    };
    Ok(HeldPod {
        name: Text::from_str(alloc, name)?,
        plan: state.plan.copy(alloc)?,
        ready: false,
        steps: Vec::new(alloc),
        failed: false,
    })
}

/// Tries the claim of the first pod that the kubelet may claim. Where it is written the pod is held; room for it is made
/// before.
pub(crate) fn claim_pod(
    alloc: Global,
    me: Claim,
    cache: &Cache,
    store: &mut Store,
    moment: u64,
    held: &mut Vec<HeldPod>,
    name: &str,
) -> Result<KubeletTurn, AllocError>
    requires shows { Shows (seen cache.now) store.old.history }
    requires first { the_first_claim me.number (seen cache.now).view ≡ Some name.now }
    ensures answered { IfOk result (λ turn. Answered store.old (entry_by me (seen cache.now) moment (ClaimPod name.now)) turn store.new) }
    ensures held { IfOk result (λ turn. HeldClaim (seen cache.now).view name.now turn held.old.items held.new.items) }
    ensures err { OnErr result (store.new ≡ store.old) }
    ensures kept { OnErr result (held.new.items ≡ held.old.items) }
{
    let pod = fresh_pod(alloc, cache, name)?;
    held.reserve(1)?;
    let act = Act::ClaimPod {
        name: Text::from_str(alloc, name)?,
    };
    let turn = try_entry(me, cache, store, moment, act)?;
    if is_written(turn) {
        held.push_reserved(pod);
        return Ok(turn);
    }
    Ok(turn)
}
