//! The end of a held pod: what runs of it is killed, its results are fetched where its walk is over, and its EndPod is
//! tried.
ghost use Rattle.std.specs.Prelude.{◌≡◌, ◌<◌, ◌-◌, true, false, Some, length, slice_get, IfOk, OnErr};
ghost use Rattle.tk_cache.specs.Fronts.{Shows};
ghost use Rattle.tk_cache.specs.Views.{seen};
ghost use Rattle.tk_choice.specs.Took.{MayTry};
ghost use Rattle.tk_steps.specs.declared.held.HeldPod.{HeldPod as APod};
ghost use Rattle.tk_steps.specs.Moves.{Moves};
ghost use Rattle.tk_steps.specs.Ready.{ReadyIsSo};
ghost use Rattle.tk_held.specs.Conditions.{AreMet};
ghost use Rattle.tk_held.specs.Pods.{KeepsPod, RoseBy, one_if};
ghost use Rattle.tk_kubelet.specs.Answer.{Answered};
ghost use Rattle.tk_kubelet.specs.Choice.{claimed_before as the_before, ends_held as the_ends_held, first_end as the_first_end};
ghost use Rattle.tk_kubelet.specs.Ends.{EndsSo, IsConcluded, end_of, settled_outcome as the_outcome, without_exit as the_failed};
ghost use Rattle.tk_kubelet.specs.Entries.{held_behind};
ghost use Rattle.tk_kubelet.specs.Seat.{actor_of, entry_by, hosts_of, seat_at};
ghost use Rattle.tk_kubelet.specs.Turn.{ConcludesOne, EndGives, EndMissed};

use crate::choose::{claimed_before, place_named};
use crate::kubelet::KubeletTurn;
use crate::lost::end_lost;
use crate::trying::{is_written, try_entry};
use std::alloc::{AllocError, Global};
use tk_cache::Cache;
use tk_edge::Host;
use tk_held::{Settled, judge};
use tk_journal::{Act, Claim};
use tk_outcome::{exits, walked_outcome};
use tk_steps::{HeldPod, kill};
use tk_store::Store;
use tk_types::{List, Outcome, Text, TryCopy};

/// The outcome of a pod for which a call failed.
fn without_exit(alloc: Global) -> Outcome
    ensures { result ≡ the_failed }
{
    Outcome::Failed {
        exit: None,
        results: List::new(alloc),
    }
}

/// The outcome of a pod that is marked or late, or for which a call failed.
fn settled_outcome(alloc: Global, settled: Option<Settled>, failed: bool) -> Option<Outcome>
    ensures { result ≡ the_outcome settled failed }
{
    match settled {
        Some(Settled::Cancelled) => Some(Outcome::Cancelled),
        Some(Settled::TimedOut) => Some(Outcome::TimedOut),
        None if failed => Some(without_exit(alloc)),
        None => None,
    }
}

/// How a held pod ends. The results of one whose walk is over are fetched first; where a fetch fails, that is kept with
/// the pod, which then fails without an exit.
fn outcome_of<H: Host>(
    alloc: Global,
    root: &Text,
    cache: &Cache,
    host: &mut H,
    moment: u64,
    pod: &mut HeldPod,
) -> Result<Outcome, AllocError>
    requires keeps { KeepsPod (H.told host.old) pod.old }
    requires over { the_ends_held (seen cache.now).view moment pod.old ≡ true }
    ensures ends { IfOk result (EndsSo (seen cache.now).view moment root.now (H.told host.new) (H.files host.new) pod.new) }
    ensures same { IsConcluded pod.old pod.new }
    ensures moves { Moves root.now pod.old pod.new (H.told host.old) (H.told host.new) }
    ensures stays { ReadyIsSo root.now pod.old (H.told host.old) → ReadyIsSo root.now pod.new (H.told host.new) }
    ensures killed { H.killed host.new ≡ H.killed host.old }
    ensures watches { H.watches host.new ≡ H.watches host.old }
    ensures plays { H.plays host.new ≡ H.plays host.old }
    ensures count { RoseBy (one_if pod.new.failed - one_if pod.old.failed) (H.faults host.old) (H.faults host.new) }
{
    let settled = judge(cache, pod.name.as_str(), moment);
    if let Some(outcome) = settled_outcome(alloc, settled, pod.failed) {
        return Ok(outcome);
    }
    match walked_outcome(alloc, host, root, pod)? {
        Some(outcome) => Ok(outcome),
        None => Ok(without_exit(alloc)),
    }
}

/// Kills what runs of a held pod, and answers how it ends. A failed kill changes no outcome.
fn conclude<H: Host>(
    alloc: Global,
    root: &Text,
    cache: &Cache,
    host: &mut H,
    moment: u64,
    pod: &mut HeldPod,
) -> Result<Outcome, AllocError>
    requires keeps { KeepsPod (H.told host.old) pod.old }
    requires over { the_ends_held (seen cache.now).view moment pod.old ≡ true }
    ensures ends { IfOk result (EndsSo (seen cache.now).view moment root.now (H.told host.new) (H.files host.new) pod.new) }
    ensures one { ConcludesOne root.now pod.old pod.new (hosts_of H.told H.killed H.faults H.watches H.files H.plays host.old host.new) }
{
    let _failed = kill(host, pod);
    outcome_of(alloc, root, cache, host, moment, pod)
}

/// Tries the EndPod of the held pod at a place, with the exits of its steps and this outcome. Where it is written the pod
/// is held no more. It makes no call on the host.
fn end_with(
    alloc: Global,
    me: Claim,
    cache: &Cache,
    store: &mut Store,
    moment: u64,
    held: &mut Vec<HeldPod>,
    place: usize,
    outcome: Outcome,
) -> Result<KubeletTurn, AllocError>
    requires shows { Shows (seen cache.now) store.old.history }
    requires within { place < length held.old.items }
    requires may { (pod : APod) → slice_get held.old.items place ≡ Some pod → MayTry (seen cache.now).view (actor_of me) moment (end_of pod outcome) }
    ensures answered { (pod : APod) → slice_get held.old.items place ≡ Some pod → IfOk result (λ turn. Answered store.old (entry_by me (seen cache.now) moment (end_of pod outcome)) turn store.new) }
    ensures held { IfOk result (λ turn. held.new.items ≡ held_behind turn place held.old.items) }
    ensures err { OnErr result (store.new ≡ store.old) }
    ensures kept { OnErr result (held.new.items ≡ held.old.items) }
{
    let pod = &held[place];
    let act = Act::EndPod {
        name: pod.name.copy(alloc)?,
        exits: exits(alloc, pod)?,
        outcome,
    };
    let turn = try_entry(me, cache, store, moment, act)?;
    if is_written(turn) {
        let _ended = held.remove(place);
        return Ok(turn);
    }
    Ok(turn)
}

/// Ends the held pod at a place, which is the first that the kubelet ends: what runs of it is killed before.
fn end_held<H: Host>(
    alloc: Global,
    me: Claim,
    root: &Text,
    cache: &Cache,
    store: &mut Store,
    host: &mut H,
    moment: u64,
    held: &mut Vec<HeldPod>,
    place: usize,
) -> Result<KubeletTurn, AllocError>
    requires shows { Shows (seen cache.now) store.old.history }
    requires met { AreMet me.number me.life root.now held.old.items store.old.history (H.killed host.old) (H.told host.old) }
    requires within { place < length held.old.items }
    requires first { (pod : APod) → slice_get held.old.items place ≡ Some pod → the_first_end me.number me.life (seen cache.now).view moment held.old.items ≡ Some pod.name }
    requires own { (pod : APod) → slice_get held.old.items place ≡ Some pod → the_before me.life ((seen cache.now).view.pod pod.name) ≡ false }
    requires over { (pod : APod) → slice_get held.old.items place ≡ Some pod → the_ends_held (seen cache.now).view moment pod ≡ true }
    ensures met { AreMet me.number me.life root.now held.new.items store.new.history (H.killed host.new) (H.told host.new) }
    ensures answer { IfOk result (EndGives (seat_at me root.now (seen cache.now) moment) held.old.items held.new.items (hosts_of H.told H.killed H.faults H.watches H.files H.plays host.old host.new) store.old store.new) }
    ensures memory { OnErr result (EndMissed (seat_at me root.now (seen cache.now) moment) held.old.items held.new.items (hosts_of H.told H.killed H.faults H.watches H.files H.plays host.old host.new) store.old store.new) }
{
    store.legal();
    let outcome = conclude(alloc, root, cache, host, moment, &mut held[place])?;
    end_with(alloc, me, cache, store, moment, held, place, outcome)
}

/// Ends the pod of this name, which is the first that the kubelet ends.
pub(crate) fn end_pod<H: Host>(
    alloc: Global,
    me: Claim,
    root: &Text,
    cache: &Cache,
    store: &mut Store,
    host: &mut H,
    moment: u64,
    held: &mut Vec<HeldPod>,
    name: &str,
) -> Result<KubeletTurn, AllocError>
    requires shows { Shows (seen cache.now) store.old.history }
    requires met { AreMet me.number me.life root.now held.old.items store.old.history (H.killed host.old) (H.told host.old) }
    requires first { the_first_end me.number me.life (seen cache.now).view moment held.old.items ≡ Some name.now }
    ensures met { AreMet me.number me.life root.now held.new.items store.new.history (H.killed host.new) (H.told host.new) }
    ensures answer { IfOk result (EndGives (seat_at me root.now (seen cache.now) moment) held.old.items held.new.items (hosts_of H.told H.killed H.faults H.watches H.files H.plays host.old host.new) store.old store.new) }
    ensures memory { OnErr result (EndMissed (seat_at me root.now (seen cache.now) moment) held.old.items held.new.items (hosts_of H.told H.killed H.faults H.watches H.files H.plays host.old host.new) store.old store.new) }
{
    if claimed_before(me.life, cache, name) {
        return end_lost(alloc, me, cache, store, moment, name);
    }
    match place_named(held.as_slice(), name) {
        Some(place) => end_held(alloc, me, root, cache, store, host, moment, held, place),
        None => unreachable!(),
    }
}
