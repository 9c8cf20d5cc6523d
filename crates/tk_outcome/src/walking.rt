//! The exits of a pod's steps, and its walk through them (Tekton, Tasks, Specifying `onError` for a step).
ghost use Rattle.std.specs.Prelude.{◌≡◌, ◌≤◌, length, IfOk};
ghost use Rattle.tk_steps.specs.Held.{IsPlanOf};
ghost use Rattle.tk_outcome.specs.Exits.{exits_of, walked_of, is_walked as the_walked, broken_exit as the_broken};

use std::alloc::{AllocError, Global};
use tk_pod::{PodWalk, Walked};
use tk_steps::HeldPod;
use tk_types::List;

/// The exits of the pod's steps that ended, in order.
pub fn exits(alloc: Global, pod: &HeldPod) -> Result<List<u8>, AllocError>
    ensures { IfOk result (λ exits. exits ≡ exits_of pod.now.steps.items) }
{
    let mut exits = Vec::new(alloc);
    for step in &pod.steps {
        let Some(exit) = step.exit else {
            continue;
        };
        exits.push(exit)?;
    }
    Ok(List::from_vec(exits))
}

/// How the pod's walk ended; None while it isn't over.
fn walked(pod: &HeldPod) -> Option<Walked>
    requires plan { IsPlanOf pod.now.name pod.now.plan }
    requires within { length pod.now.steps.items ≤ length pod.now.plan.orders }
    ensures { result ≡ walked_of pod.now }
{
    let mut walk = PodWalk::new(pod.plan.orders.len() as u32, pod.plan.keep);
    for step in &pod.steps {
        let Some(exit) = step.exit else {
            continue;
        };
        if walk.next().is_none() {
            return walk.outcome();
        }
        walk.ended(exit);
    }
    walk.outcome()
}

/// Whether the pod's walk is over: a step doesn't pass, or every step has an exit.
pub fn is_walked(pod: &HeldPod) -> bool
    requires plan { IsPlanOf pod.now.name pod.now.plan }
    requires within { length pod.now.steps.items ≤ length pod.now.plan.orders }
    ensures { result ≡ the_walked pod.now }
{
    walked(pod).is_some()
}

/// The first exit that doesn't pass.
pub fn broken_exit(pod: &HeldPod) -> Option<u8>
    requires plan { IsPlanOf pod.now.name pod.now.plan }
    requires within { length pod.now.steps.items ≤ length pod.now.plan.orders }
    ensures { result ≡ the_broken pod.now }
{
    match walked(pod) {
        Some(Walked::Broke { exit, .. }) => Some(exit),
        Some(Walked::Well) => None,
        None => None,
    }
}
