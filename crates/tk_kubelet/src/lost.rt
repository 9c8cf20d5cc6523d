//! The end of a pod that an earlier life of the kubelet claimed.
ghost use Rattle.std.specs.Prelude.{◌≡◌, [], IfOk, OnErr};
ghost use Rattle.tk_types.specs.declared.run.Outcome.TheVariants.{Lost};
ghost use Rattle.tk_cache.specs.Fronts.{Shows};
ghost use Rattle.tk_cache.specs.Views.{seen};
ghost use Rattle.tk_journal.specs.declared.act.Act.TheVariants.{EndPod};
ghost use Rattle.tk_kubelet.specs.Answer.{Answered};
ghost use Rattle.tk_kubelet.specs.Ends.{IsLost};
ghost use Rattle.tk_kubelet.specs.Seat.{entry_by};

use crate::kubelet::KubeletTurn;
use crate::trying::try_entry;
use std::alloc::{AllocError, Global};
use tk_cache::Cache;
use tk_journal::{Act, Claim};
use tk_store::Store;
use tk_types::{List, Outcome, Text};

/// Tries the EndPod of a pod that an earlier life claimed, as Lost and without exits. It makes no call on the host.
pub(crate) fn end_lost(
    alloc: Global,
    me: Claim,
    cache: &Cache,
    store: &mut Store,
    moment: u64,
    name: &str,
) -> Result<KubeletTurn, AllocError>
    requires shows { Shows (seen cache.now) store.old.history }
    requires lost { IsLost me (seen cache.now).view name.now }
    ensures answered { IfOk result (λ turn. Answered store.old (entry_by me (seen cache.now) moment (EndPod name.now [] Lost)) turn store.new) }
    ensures err { OnErr result (store.new ≡ store.old) }
{
    let act = Act::EndPod {
        name: Text::from_str(alloc, name)?,
        exits: List::new(alloc),
        outcome: Outcome::Lost,
    };
    try_entry(me, cache, store, moment, act)
}
