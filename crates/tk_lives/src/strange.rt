ghost use Rattle.std.specs.Prelude.{◌≡◌, IfOk, Some, length};
ghost use Rattle.tk_journal.specs.Legal.{IsLegal};
ghost use Rattle.tk_cache.specs.Fronts.{Shows};
ghost use Rattle.tk_cache.specs.Views.{seen};
ghost use Rattle.tk_lives.specs.Taking.{beyond as the_beyond, first_some, strange_claim as the_strange_claim, strange_node as the_strange_node};

use std::alloc::{AllocError, Global};
use tk_cache::Cache;
use tk_cache::laws::nothing_shows;
use tk_journal::{Claim, Journal, PodState};
use tk_types::Kind;

/// The number of the kubelet that claimed, where it isn't one of so many.
fn beyond(nodes: u32, claim: Option<Claim>) -> Option<u32>
    ensures { result ≡ the_beyond nodes claim }
{
    match claim {
        Some(claim) => if nodes <= claim.number {
            Some(claim.number)
        } else {
            None
        },
        None => None,
    }
}

/// The same of a pod that hasn't ended.
fn strange_claim(nodes: u32, pod: &PodState) -> Option<u32>
    ensures { result ≡ the_strange_claim nodes (Some pod.now) }
{
    match pod.ended {
        None => beyond(nodes, pod.claim),
        Some(_) => None,
    }
}

/// The first of a cache's pods, in order of creation.
fn first_strange(nodes: u32, cache: &Cache) -> Option<u32>
    ensures { result ≡ first_some (λ name. the_strange_claim nodes ((seen cache.now).view.pod name)) (seen cache.now).view.pods }
{
    for place in 0..cache.pod_count() {
        let strange = strange_claim(nodes, cache.pod_at(place));
        if strange.is_some() {
            return strange;
        }
    }
    None
}

/// A cache of a journal's pods as they stand at its end. The only error is want of memory.
fn pods_of(alloc: Global, journal: &Journal) -> Result<Cache, AllocError>
    requires legal { IsLegal journal.now.history }
    ensures shows { IfOk result (λ cache. Shows (seen cache) journal.now.history) }
    ensures end { IfOk result (λ cache. cache.fronts.pods ≡ length journal.now.history) }
{
    nothing_shows();
    let mut cache = Cache::empty(alloc);
    cache.relist(journal, Kind::Pods, journal.len())?;
    Ok(cache)
}

/// The number of the kubelet that claimed the first pod of a journal, in order of creation, that hasn't ended and is claimed
/// by none of so many nodes. The only error is want of memory.
pub fn strange_node(alloc: Global, journal: &Journal, nodes: u32) -> Result<Option<u32>, AllocError>
    requires legal { IsLegal journal.now.history }
    ensures { IfOk result (λ number. number ≡ the_strange_node nodes journal.now.history) }
{
    let cache = pods_of(alloc, journal)?;
    Ok(first_strange(nodes, &cache))
}
