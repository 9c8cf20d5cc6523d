ghost use Rattle.std.specs.Prelude.{◌≡◌, IsTrue};
ghost use Rattle.tk_edge.specs.History.{Has, arming_of};
ghost use Rattle.tk_process.specs.declared.before.Before.TheVariants as ways;
ghost use Rattle.tk_process.specs.Before.{IsExplained, PostsFor};

use tk_edge::{Arming, HostLog, passes};

/// How it went with the step before an entry, by what was told of it.
#[derive(Clone, Copy, PartialEq, Eq)]
pub(crate) enum Before {
    /// No entry posts where it waits.
    Nobody,
    /// That entry isn't over.
    Open,
    Passed,
    /// It broke or was refused.
    Broke,
}

/// Whether the child is of the pod of this entry, and posts where it waits.
fn posts_for(log: &HostLog, child: u64, arming: &Arming) -> bool
    ensures { IsTrue result → Has (arming_of child log.now.told) (PostsFor arming.now) }
{
    match log.arming(child) {
        Some(other) => {
            other.order.pod.as_str() == arming.order.pod.as_str()
                && other.post.as_str() == arming.wait.as_str()
        }
        None => false,
    }
}

/// The newest child that posts where an entry waits. The steps of a pod are armed one behind the other.
pub(crate) fn poster(log: &HostLog, arming: &Arming) -> Option<u64> {
    for child in (0..log.count()).rev() {
        if posts_for(log, child, arming) {
            return Some(child);
        }
    }
    None
}

/// Whether a child is over, by what was told of it.
pub(crate) fn is_over(log: &HostLog, child: u64) -> bool {
    log.exit(child).is_some() || log.is_refused(child)
}

/// How it went with the step before an entry, whose child this may be.
#[tactic(auto, using(crate::proofs::Explained::by_refusal, crate::proofs::Explained::by_exit))]
pub(crate) fn outcome_before(log: &HostLog, arming: &Arming, poster: Option<u64>) -> Before
    ensures { result ≡ ways.Broke → IsExplained arming.now log.now.told }
{
    let Some(child) = poster else {
        return Before::Nobody;
    };
    if !posts_for(log, child, arming) {
        return Before::Nobody;
    }
    if log.is_refused(child) {
        return Before::Broke;
    }
    match (log.arming(child), log.exit(child)) {
        (Some(other), Some(exit)) => {
            if passes(other.keep_going, exit) {
                Before::Passed
            } else {
                Before::Broke
            }
        }
        _ => Before::Open,
    }
}
