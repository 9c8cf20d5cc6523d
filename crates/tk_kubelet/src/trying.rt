//! An entry of a kubelet, and the store's answer to it.
ghost use Rattle.std.specs.Prelude.{◌≡◌, false, IfOk, OnErr};
ghost use Rattle.tk_cache.specs.Fronts.{Shows};
ghost use Rattle.tk_cache.specs.Views.{seen};
ghost use Rattle.tk_choice.specs.Took.{MayTry};
ghost use Rattle.tk_journal.specs.Effects.{is_create};
ghost use Rattle.tk_kubelet.specs.Answer.{Answered, is_written as the_written};
ghost use Rattle.tk_kubelet.specs.Seat.{actor_of, entry_by};

use crate::kubelet::KubeletTurn;
use std::alloc::AllocError;
use tk_cache::Cache;
use tk_choice::try_act;
use tk_journal::{Act, Actor, Claim};
use tk_store::{Store, Turn};

/// Tries an act that changes a pod, at the fronts of the kubelet's cache. It takes no memory but the store's.
pub(crate) fn try_entry(
    me: Claim,
    cache: &Cache,
    store: &mut Store,
    moment: u64,
    act: Act,
) -> Result<KubeletTurn, AllocError>
    requires shows { Shows (seen cache.now) store.old.history }
    requires may { MayTry (seen cache.now).view (actor_of me) moment act }
    requires update { is_create act ≡ false }
    ensures answered { IfOk result (λ turn. Answered store.old (entry_by me (seen cache.now) moment act) turn store.new) }
    ensures err { OnErr result (store.new ≡ store.old) }
{
    let actor = Actor::Kubelet {
        number: me.number,
        life: me.life,
    };
    match try_act(actor, cache, store, moment, act) {
        Turn::Wrote { version } => Ok(KubeletTurn::Wrote { version }),
        Turn::Conflict { found } => Ok(KubeletTurn::Conflict { found }),
        Turn::Exists { .. } => unreachable!(),
        Turn::Idle => unreachable!(),
        Turn::Memory => Err(AllocError),
    }
}

/// Whether the entry was written.
pub(crate) fn is_written(turn: KubeletTurn) -> bool
    ensures { result ≡ the_written turn }
{
    matches!(turn, KubeletTurn::Wrote { .. })
}
