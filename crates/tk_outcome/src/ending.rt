//! The outcome of a pod whose walk is over.
ghost use Rattle.std.specs.Prelude.{◌≡◌, ◌≤◌, length, false, is_none, true, IfOk, IfSome, OnErr};
ghost use Rattle.tk_steps.specs.Held.{IsPlanOf, HoldsPod};
ghost use Rattle.tk_steps.specs.Moves.{Moves, count_actions, counted};
ghost use Rattle.tk_steps.specs.Ready.{ReadyIsSo};
ghost use Rattle.tk_outcome.specs.Exits.{is_walked as the_walked};
ghost use Rattle.tk_outcome.specs.Fetches.{with_failed};
ghost use Rattle.tk_outcome.specs.Walked.{outcome_of as the_outcome, EndsWalked};

use crate::fetching::results_of;
use crate::walking::broken_exit;
use std::alloc::{AllocError, Global};
use tk_edge::{Host, Miss};
use tk_steps::HeldPod;
use tk_types::{List, Outcome, Param, Text};

/// The outcome of a walk that is over, by the exit with which it broke and its results, which may be refused.
fn outcome_of(alloc: Global, exit: Option<u8>, results: Option<List<Param>>) -> Outcome
    ensures { result ≡ the_outcome exit results }
{
    match (exit, results) {
        (None, Some(results)) => Outcome::Succeeded(results),
        (exit, Some(results)) => Outcome::Failed { exit, results },
        (exit, None) => Outcome::Failed {
            exit,
            results: List::new(alloc),
        },
    }
}

/// The outcome of a pod whose walk is over: the files of its declared results are fetched, each by its first 4,097
/// bytes, and gathered. A well walk succeeds with the results, and fails without an exit where they are refused; a
/// broken one fails with its exit and the results, or with none where they are refused. None comes exactly where a
/// fetch failed, which is kept with the pod. A missing file is a result that isn't emitted.
pub fn walked_outcome<H: Host>(
    alloc: Global,
    host: &mut H,
    root: &Text,
    pod: &mut HeldPod,
) -> Result<Option<Outcome>, AllocError>
    requires plan { IsPlanOf pod.old.name pod.old.plan }
    requires within { length pod.old.steps.items ≤ length pod.old.plan.orders }
    requires holds { HoldsPod (H.told host.old) pod.old }
    requires over { the_walked pod.old ≡ true }
    requires not_failed { pod.old.failed ≡ false }
    ensures outcome { IfOk result (λ outcome. IfSome outcome (EndsWalked root.now (H.told host.new) (H.files host.new) pod.new)) }
    ensures failed { IfOk result (λ outcome. pod.new.failed ≡ is_none outcome) }
    ensures kept { OnErr result (pod.new.failed ≡ false) }
    ensures same { pod.new ≡ with_failed pod.new.failed pod.old }
    ensures moves { Moves root.now pod.old pod.new (H.told host.old) (H.told host.new) }
    ensures stays { ReadyIsSo root.now pod.old (H.told host.old) → ReadyIsSo root.now pod.new (H.told host.new) }
    ensures quiet { count_actions (H.told host.new) ≡ count_actions (H.told host.old) }
    ensures files { H.files host.new ≡ H.files host.old }
    ensures killed { H.killed host.new ≡ H.killed host.old }
    ensures watches { H.watches host.new ≡ H.watches host.old }
    ensures plays { H.plays host.new ≡ H.plays host.old }
    ensures count { H.faults host.new ≡ counted pod.new.failed (H.faults host.old) }
{
    match results_of(alloc, host, root, pod) {
        Ok(results) => {
            let exit = broken_exit(pod);
            Ok(Some(outcome_of(alloc, exit, results)))
        }
        Err(Miss::Failed) => {
            pod.failed = true;
            Ok(None)
        }
        Err(Miss::Memory) => Err(AllocError),
    }
}
