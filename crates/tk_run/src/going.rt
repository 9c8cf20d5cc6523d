ghost use Rattle.std.specs.Prelude.{◌≡◌, ◌<◌, ◌≤◌, ◌+◌, ◌^◌, ◌⊎◌, ◌↔◌, ℕ, length, IfOk, OnOk, IsTrue};
ghost use Rattle.tk_cache.specs.Fronts.{Shows};
ghost use Rattle.tk_cache.specs.Views.{seen};
ghost use Rattle.tk_journal.specs.Legal.{IsLegal};
ghost use Rattle.tk_journal.specs.Progress.{IsOpen};
ghost use Rattle.tk_rounds.specs.Bench.{AllFollow, AllReady, ControllerFollows, IsReadyController, IsReadyNode, NodeFollows, controller_number, node_number};
ghost use Rattle.tk_rounds.specs.Growth.{GrowsBy, OfOne};
ghost use Rattle.tk_rounds.specs.Members.{of_controller, of_kubelet};
ghost use Rattle.tk_run.specs.Asks.{AreTried, IsEachTried};
ghost use Rattle.tk_run.specs.Going.{GoesOn, IsReady};

use crate::asks::{AskWord, Asking, all_tried, ask_due, refuse_rest};
use std::alloc::{AllocError, Global};
use std::sync::Wait;
use std::thread::Threads;
use tk_cache::Cache;
use tk_edge::{Clock, Gate, Host};
use tk_rounds::{Bench, Controller, Member, Node, RoundEnd, node_round, serial_round};
use tk_store::Store;
use tk_world::{deliver_all, is_open};

/// Whether a run that isn't pending, or a TaskRun, is open in a store's journal, by a cache that shows it. The only error is
/// want of memory.
fn is_going(watch: &mut Cache, store: &Store) -> Result<bool, AllocError>
    requires shows { Shows (seen watch.old) store.now.history }
    ensures shows { Shows (seen watch.new) store.now.history }
    ensures open { IfOk result (λ is_open. IsTrue is_open ↔ IsOpen store.now.history) }
{
    store.legal();
    deliver_all(watch, store.journal())?;
    Ok(is_open(watch))
}

/// Asks what is due, while the members of the bench stay as they are. The only error is want of memory.
fn ask<K: Clock, H: Host, G: Gate>(
    alloc: Global,
    bench: &mut Bench<K, H, G>,
    words: &[AskWord],
    asking: &mut Asking,
    store: &mut Store,
) -> Result<(), AllocError>
    requires ready { IsReady H.told H.killed store.old.history bench.old }
    requires count { length asking.old.tried.items ≡ length words.now }
    ensures count { length asking.new.tried.items ≡ length asking.old.tried.items }
    ensures start { asking.new.start ≡ asking.old.start }
    ensures legal { IsLegal store.new.history }
    ensures ready { IsReady H.told H.killed store.new.history bench.new }
    ensures goes { GoesOn G.answers K.readings K.last H.told H.faults bench.old bench.new store.old.history store.new.history }
    ensures asks { (since : ℕ) → since ≤ asking.old.start → AreTried since words.now asking.old.tried.items store.old.history → AreTried since words.now asking.new.tried.items store.new.history }
{
    Controller::<K, G>::laws();
    Node::<K, H, G>::laws();
    ask_due(alloc, &mut bench.user, words, asking, store)
}

/// Who takes turns in a round, and how.
#[derive(Clone, Copy)]
enum Way {
    /// All members, one after the other.
    OneByOne,
    /// All members, each in a thread of its own.
    InThreads,
    /// The nodes, one after the other.
    NodesAlone,
}

/// A round of the bench. The only error is want of memory.
fn some_round<
    T: Threads + Wait + Sync,
    K: Clock + Drop + Send,
    H: Host + Drop + Send,
    G: Gate + Drop + Send,
>(
    rt: &T,
    alloc: Global,
    bench: &mut Bench<K, H, G>,
    store: &mut Store,
    way: Way,
) -> Result<RoundEnd, AllocError>
    requires sizes { (length bench.old.controllers.items < 2 ^ 32) × (length bench.old.kubelets.items < 2 ^ 32) }
    requires controllers { AllReady controller_number IsReadyController store.old.history bench.old.controllers.items }
    requires nodes { AllReady node_number (IsReadyNode H.told H.killed) store.old.history bench.old.kubelets.items }
    ensures legal { IsLegal store.new.history }
    ensures controllers { AllReady controller_number IsReadyController store.new.history bench.new.controllers.items }
    ensures nodes { AllReady node_number (IsReadyNode H.told H.killed) store.new.history bench.new.kubelets.items }
    ensures counts { (length bench.new.controllers.items ≡ length bench.old.controllers.items) × (length bench.new.kubelets.items ≡ length bench.old.kubelets.items) }
    ensures user { bench.new.user ≡ bench.old.user }
    ensures wrote { IfOk result (λ end. length store.new.history ≡ length store.old.history + end.wrote) }
    ensures grows { GrowsBy (λ e. OfOne of_controller (length bench.old.controllers.items) e ⊎ OfOne of_kubelet (length bench.old.kubelets.items) e) store.old.history store.new.history }
    ensures controllers_follow { AllFollow (ControllerFollows G.answers K.readings K.last) bench.old.controllers.items bench.new.controllers.items store.old.history store.new.history }
    ensures nodes_follow { AllFollow (NodeFollows G.answers K.readings K.last H.told H.faults) bench.old.kubelets.items bench.new.kubelets.items store.old.history store.new.history }
{
    match way {
        Way::OneByOne => serial_round(bench, alloc, store),
        Way::InThreads => tk_threads::round(rt, bench, alloc, store),
        Way::NodesAlone => node_round(bench, alloc, store),
    }
}

/// A round of the bench. The only error is want of memory.
fn round<
    T: Threads + Wait + Sync,
    K: Clock + Drop + Send,
    H: Host + Drop + Send,
    G: Gate + Drop + Send,
>(
    rt: &T,
    alloc: Global,
    bench: &mut Bench<K, H, G>,
    words: &[AskWord],
    asking: &Asking,
    store: &mut Store,
    way: Way,
) -> Result<(), AllocError>
    requires ready { IsReady H.told H.killed store.old.history bench.old }
    ensures legal { IsLegal store.new.history }
    ensures ready { IsReady H.told H.killed store.new.history bench.new }
    ensures goes { GoesOn G.answers K.readings K.last H.told H.faults bench.old bench.new store.old.history store.new.history }
    ensures asks { (since : ℕ) → AreTried since words.now asking.now.tried.items store.old.history → AreTried since words.now asking.now.tried.items store.new.history }
{
    let end = some_round(rt, alloc, bench, store, way);
    store.legal();
    end?;
    Ok(())
}

/// How many rounds in a row that come to nothing go by until the controllers look again.
const LOOKS: u64 = 8;

/// How the round goes that stands behind so many that came to nothing. While entries are written, or where something was
/// asked, members go one after the other: a turn holds the store, so threads would only hand it over. Behind a round that
/// came to nothing the run waits. Then only a timeout can give controllers something to do, so they look now and then, each
/// member in a thread of its own, where a gate that takes its time holds up no other.
fn way_behind(idle: u64, has_asked: bool) -> Way {
    if has_asked || idle == 0 {
        Way::OneByOne
    } else if idle % LOOKS == 0 {
        Way::InThreads
    } else {
        Way::NodesAlone
    }
}

/// What is due is asked, and a round follows. It tells whether the journal grew. The only error is want of memory.
fn go_on<
    T: Threads + Wait + Sync,
    K: Clock + Drop + Send,
    H: Host + Drop + Send,
    G: Gate + Drop + Send,
>(
    rt: &T,
    alloc: Global,
    bench: &mut Bench<K, H, G>,
    words: &[AskWord],
    asking: &mut Asking,
    store: &mut Store,
    idle: u64,
) -> Result<bool, AllocError>
    requires ready { IsReady H.told H.killed store.old.history bench.old }
    requires count { length asking.old.tried.items ≡ length words.now }
    ensures count { length asking.new.tried.items ≡ length asking.old.tried.items }
    ensures start { asking.new.start ≡ asking.old.start }
    ensures legal { IsLegal store.new.history }
    ensures ready { IsReady H.told H.killed store.new.history bench.new }
    ensures goes { GoesOn G.answers K.readings K.last H.told H.faults bench.old bench.new store.old.history store.new.history }
    ensures asks { (since : ℕ) → since ≤ asking.old.start → AreTried since words.now asking.old.tried.items store.old.history → AreTried since words.now asking.new.tried.items store.new.history }
{
    let before = store.journal().len();
    ask(alloc, bench, words, asking, store)?;
    let has_asked = store.journal().len() > before;
    round(
        rt,
        alloc,
        bench,
        words,
        asking,
        store,
        way_behind(idle, has_asked),
    )?;
    Ok(store.journal().len() > before)
}

/// Whether no run that isn't pending is open and each word was tried. Where nothing is open a word that is refused counts as
/// tried before its time, since it stays refused. The only error is want of memory.
fn is_over(
    alloc: Global,
    words: &[AskWord],
    asking: &mut Asking,
    watch: &mut Cache,
    store: &Store,
    idle: u64,
) -> Result<bool, AllocError>
    requires shows { Shows (seen watch.old) store.now.history }
    requires count { length asking.old.tried.items ≡ length words.now }
    ensures count { length asking.new.tried.items ≡ length asking.old.tried.items }
    ensures start { asking.new.start ≡ asking.old.start }
    ensures asks { (since : ℕ) → AreTried since words.now asking.old.tried.items store.now.history → AreTried since words.now asking.new.tried.items store.now.history }
    ensures shows { Shows (seen watch.new) store.now.history }
    ensures over { IfOk result (λ over. IsTrue over → IsEachTried asking.new.tried.items × (IsOpen store.now.history → ⊥)) }
{
    if is_going(watch, store)? {
        return Ok(false);
    }
    refuse_rest(alloc, words, asking, store, idle)?;
    Ok(all_tried(asking.tried.as_slice()))
}

/// How often the user's clock rests at most behind one round.
const RESTS: u64 = 64;

/// How many rounds came to nothing, behind one in which the journal grew or didn't.
fn idle_after(idle: u64, grew: bool) -> u64 {
    if grew { 0 } else { idle.saturating_add(1) }
}

/// The user's clock rests, the more often the more rounds came to nothing.
fn rest<K: Clock>(user: &mut K, idle: u64)
    ensures last { K.last user.new ≡ K.last user.old }
    ensures told { K.readings user.new ≡ K.readings user.old }
{
    for _ in 0..(1 + idle / 16).min(RESTS) {
        user.rest();
    }
}

/// Rounds until every run is closed or pending and each word was tried or is refused for good. After a round without an entry the user's clock
/// rests. The only error is want of memory.
pub(crate) fn rounds<
    T: Threads + Wait + Sync,
    K: Clock + Drop + Send,
    H: Host + Drop + Send,
    G: Gate + Drop + Send,
>(
    rt: &T,
    alloc: Global,
    bench: &mut Bench<K, H, G>,
    words: &[AskWord],
    asking: &mut Asking,
    store: &mut Store,
    watch: &mut Cache,
) -> Result<(), AllocError>
    requires ready { IsReady H.told H.killed store.old.history bench.old }
    requires shows { Shows (seen watch.old) store.old.history }
    requires count { length asking.old.tried.items ≡ length words.now }
    ensures ready { IsReady H.told H.killed store.new.history bench.new }
    ensures goes { GoesOn G.answers K.readings K.last H.told H.faults bench.old bench.new store.old.history store.new.history }
    ensures asks { (since : ℕ) → since ≤ asking.old.start → AreTried since words.now asking.old.tried.items store.old.history → AreTried since words.now asking.new.tried.items store.new.history }
    ensures count { length asking.new.tried.items ≡ length words.now }
    ensures tried { OnOk result (IsEachTried asking.new.tried.items) }
    ensures legal { IsLegal store.new.history }
    ensures closed { OnOk result (IsOpen store.new.history → ⊥) }
{
    let mut idle = 0u64;
    for _ in rt.forever() {
        let grew = go_on(rt, alloc, bench, words, asking, store, idle)?;
        idle = idle_after(idle, grew);
        if idle > 0 {
            if is_over(alloc, words, asking, watch, store, idle)? {
                return Ok(());
            }
            rest(&mut bench.user, idle);
        }
    }
    unreachable!()
}
