ghost use Rattle.std.specs.Prelude.{◌≡◌, List, [], Err, IfErr, IfOk, None};
ghost use Rattle.tk_journal.specs.declared.entry.Entry.{Entry as AnEntry};
ghost use Rattle.tk_journal.specs.Legal.{IsLegal};
ghost use Rattle.tk_rounds.specs.declared.bench.Bench.{Bench as ABench};
ghost use Rattle.tk_manifest.specs.declared.kinds.KindSet.TheVariants.{Four};
ghost use Rattle.tk_admit.specs.Admit.{admitted, input_fault};
ghost use Rattle.tk_types.specs.Rejected.{IsRefusal, Reads};
ghost use Rattle.tk_run.specs.Asks.{asks_count};
ghost use Rattle.tk_run.specs.Begun.{IsNewBench};
ghost use Rattle.tk_run.specs.Going.{GoesOn, IsReady};
ghost use Rattle.tk_run.specs.Run.{AreAllOfLife, AreNodesSettled, IsPrepared, RunsTo, fault_by};

use crate::asks::{AskWord, Asking, untried};
use crate::beginning::{begin, roots_of};
use crate::going::rounds;
use crate::killing::kill_all;
use std::alloc::{AllocError, Global};
use std::sync::Wait;
use std::thread::Threads;
use tk_admit::admit;
use tk_cache::Cache;
use tk_edge::{Clock, Gate, Host};
use tk_journal::laws::legal_is_right;
use tk_journal::{Admitted, Journal};
use tk_manifest::{Document, KindSet};
use tk_rounds::Bench;
use tk_sound::laws::admitted_is_legal;
use tk_store::Store;
use tk_types::{Rejected, Text};

/// What a run of an input came to: its journal, and the first fault of the input, or want of memory.
#[derive(Drop)]
pub struct Ran {
    pub journal: Journal,
    pub end: Result<(), Rejected>,
}

/// A run that came to nothing.
fn nothing(alloc: Global, error: Rejected) -> Ran
    ensures journal { result.journal.history ≡ [] }
    ensures end { result.end ≡ Err error }
{
    Ran {
        journal: Journal::empty(alloc),
        end: Err(error),
    }
}

/// For how many asks admission makes room.
fn count_of(words: &[AskWord]) -> u32
    ensures { result ≡ asks_count words.now }
{
    words.len().min(u32::MAX as usize) as u32
}

/// What is admitted of an input.
fn admitted_of(alloc: Global, bytes: &[u8], asks: u32, root: &str) -> Result<Admitted, Rejected>
    ensures admitted { Reads (input_fault Four asks bytes.now) (admitted Four asks root.now bytes.now) result }
{
    let document = Document::new(alloc, bytes)?;
    admit(alloc, &document, KindSet::Four, asks, root)
}

/// What is admitted of an input, in a store, the root for each of so many nodes, and that none of the words was tried. It is
/// refused for the input's first fault; the only other error is want of memory.
fn prepare(
    alloc: Global,
    bytes: &[u8],
    root: &str,
    words: &[AskWord],
    nodes: usize,
) -> Result<(Store, Vec<Text>, Vec<bool>), Rejected>
    ensures ok { IfOk result (λ prepared. (fault_by words.now bytes.now ≡ None) × IsPrepared root.now words.now bytes.now nodes prepared.0 prepared.1.items prepared.2.items) }
    ensures err { IfErr result (IsRefusal (fault_by words.now bytes.now)) }
{
    let admitted = admitted_of(alloc, bytes, count_of(words), root)?;
    admitted_is_legal();
    let store = Store::new(alloc, admitted)?;
    let roots = roots_of(alloc, root, nodes)?;
    let tried = untried(alloc, words.len())?;
    Ok((store, roots, tried))
}

/// All that the kubelets of a bench still run is killed, and the journal is answered.
fn stop<K: Clock, H: Host, G: Gate>(
    bench: &mut Bench<K, H, G>,
    store: Store,
    end: Result<(), Rejected>,
) -> Ran
    requires ready { IsReady H.told H.killed store.history bench.old }
    ensures journal { result.journal.history ≡ store.history }
    ensures end { result.end ≡ end }
    ensures settled { IsLegal store.history → AreAllOfLife store.history bench.old.kubelets.items → AreNodesSettled H.told H.killed bench.new }
    ensures ready { IsReady H.told H.killed store.history bench.new }
    ensures goes { (start : ABench _ _ _) (first : List AnEntry) → GoesOn G.answers K.readings K.last H.told H.faults start bench.old first store.history → GoesOn G.answers K.readings K.last H.told H.faults start bench.new first store.history }
{
    kill_all(bench, &store);
    Ran {
        journal: store.into_journal(),
        end,
    }
}

/// Runs an input on a bench: its objects are admitted, and the members of the bench take turns in rounds (one after the
/// other while entries are written, and in threads of their own while the run waits), until every run is
/// closed or pending and each word was asked at its time, or memory lacks. Then all that still runs is killed, and the journal so
/// far is answered. The folders of pods and workspaces stand below the root.
pub fn run<
    T: Threads + Wait + Sync,
    K: Clock + Drop + Send,
    H: Host + Drop + Send,
    G: Gate + Drop + Send,
>(
    rt: &T,
    alloc: Global,
    bytes: &[u8],
    root: &str,
    words: &[AskWord],
    bench: &mut Bench<K, H, G>,
) -> Ran
    requires bench { IsNewBench H.told bench.old }
    ensures { RunsTo G.answers K.readings K.last H.told H.killed H.faults root.now words.now bytes.now bench.old bench.new result.journal.history result.end }
{
    legal_is_right();
    let (mut store, mut roots, tried) = match prepare(
        alloc,
        bytes,
        root,
        words,
        bench.kubelets.len(),
    ) {
        Ok(prepared) => prepared,
        Err(error) => return nothing(alloc, error),
    };
    begin(bench, alloc, &mut roots);
    let mut watch = Cache::empty(alloc);
    let start = bench.user.now();
    let mut asking = Asking { start, tried };
    match rounds(rt, alloc, bench, words, &mut asking, &mut store, &mut watch) {
        Ok(()) => stop(bench, store, Ok(())),
        Err(_) => stop(bench, store, Err(Rejected::Memory)),
    }
}
